//! Looking for a place, a row, an answer.
ghost use Rattle.std.specs.Prelude.{◌≡◌, true, length, filter, is_none, take};
ghost use Rattle.analysis.specs.Candidates.{claims};
ghost use Rattle.analysis.specs.Judge.{Judged, judge_number, judge_late};
ghost use Rattle.analysis.specs.declared.TheConstants.{MOST_ROWS};
ghost use Rattle.table.specs.Account.{any_above, has_number, has_priority};
ghost use Rattle.table.specs.Agreement.{MatchesAccount};
ghost use Rattle.table.specs.Places.{names, answer_of, PlaceWhere, StateHere};

use super::{MOST_ROWS, State, Table};
use analysis::{Answer, Answers, JudgeRefusal, LOCKS, Task, judge};
use demand::Kind;

// Whether a section is longer than the longest job.
pub(crate) fn any_longer(sections: &[u32; LOCKS], own: u32) -> bool
    ensures { result ≡ any_above own sections.now }
{
    sections.iter().any(|section| own < *section)
}

// The bound and the vector of the row with this number.
pub(crate) fn find_answer(answers: &[Answer], number: u32) -> Option<(u32, u32)>
    ensures { result ≡ answer_of number answers.now }
{
    answers
        .iter()
        .find(|answer| answer.number == number)
        .map(|answer| (answer.bound, answer.vector))
}

impl<'a, K: Kind + Drop> Table<'a, K> {
    // The places that the table uses: the first `MOST_ROWS` at most.
    pub(crate) fn used_places(&self) -> &[Option<Task<K>>]
        ensures { result.now ≡ take MOST_ROWS self.now.places.now }
    {
        &self.places[..self.places.len().min(MOST_ROWS)]
    }

    // The states of these places.
    fn used_states(&self) -> &[State]
        ensures { result.now ≡ take (length self.now.places.now) self.now.states }
    {
        &self.states[..self.used_places().len()]
    }

    // A place that names this number.
    pub(crate) fn place_of(&self, number: u32) -> Option<usize>
        ensures { PlaceWhere self.now (λ s. names s number ≡ true) result }
    {
        self.used_states()
            .iter()
            .position(|state| state.names(number))
    }

    // A place that is in this state.
    pub(crate) fn place_in(&self, state: State) -> Option<usize>
        ensures { PlaceWhere self.now (λ s. s ≡ state) result }
    {
        self.used_states().iter().position(|at| *at == state)
    }

    // Whether a row has this number.
    pub(crate) fn has_number(&self, number: u32) -> bool
        ensures { MatchesAccount K.demand (λ a. result ≡ has_number number a.rows) self.now }
    {
        self.place_of(number).is_some()
    }

    // Whether a row has this priority.
    pub(crate) fn has_priority(&self, priority: u32) -> bool
        ensures { MatchesAccount K.demand
            (λ a. result ≡ has_priority priority a.rows) self.now }
    {
        self.used_places()
            .iter()
            .flatten()
            .any(|task| task.row.priority == priority)
    }

    // How many of the places are free.
    pub(crate) fn free_places(&self) -> usize
        ensures { result ≡ length (filter is_none (take MOST_ROWS self.now.places.now)) }
    {
        self.used_places()
            .iter()
            .filter(|place| place.is_none())
            .count()
    }

    // What stands at the place that names this number, and `Free` where none does.
    pub(crate) fn state_here(&self, number: u32) -> State
        ensures { StateHere self.now number result }
    {
        // A match, since the check does not find what a closure of `map_or` says of the place.
        match self.place_of(number) {
            Some(place) => self.states[place],
            None => State::Free,
        }
    }

    // The judgement of the rows at the places, and of a newcomer.
    pub(crate) fn judgement(&self, newcomer: &Option<Task<K>>) -> Result<Answers, JudgeRefusal>
        ensures { Judged
            (claims K.demand (take MOST_ROWS self.now.places.now) newcomer.now) result }
    {
        judge(self.used_places(), newcomer)
    }
}
