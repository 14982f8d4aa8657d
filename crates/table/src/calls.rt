//! The calls of a table.
ghost use Rattle.std.specs.Prelude.{◌≡◌, min, [], length, All, Some, None, MatchResult};
ghost use Rattle.demand.specs.Refusals.{first};
ghost use Rattle.analysis.specs.Candidates.{claim_with};
ghost use Rattle.analysis.specs.Judge.{judge_number, judge_late};
ghost use Rattle.analysis.specs.declared.TheConstants.{MOST_ROWS};
ghost use Rattle.table.specs.declared.state.State.TheVariants.{Free, Held, Kept};
ghost use Rattle.table.specs.Account.{fresh_account, is_no_number, is_no_priority, row_checks, check_number, hold_number, hold_late, Holds, HoldsAnswered, hold_part, Spends, with_kept, with_released, Withdraws, BoundsAnswered};
ghost use Rattle.table.specs.declared.refusals.SpendRefusal.TheVariants.{NotHeld};
ghost use Rattle.table.specs.Agreement.{AgreesWith, FollowsAccount, MatchesAccount};
ghost use Rattle.table.specs.Memory.{Emptied, PutAt, StateAt, ChangesOnOk, MarksOnOk};
ghost use Rattle.table.specs.Places.{Uses, At, HeldHere, HeldNowhere, NoneKept};
ghost use Rattle.table.specs.Runs.{holding, keeping, releasing, withdrawing, bounding};
ghost use Rattle.table.specs.History.{HasHistory, Continues, EveryHistory};

use super::lookup::{any_longer, find_answer};
use super::{
    BoundRefusal, Hold, HoldRefusal, LARGEST_NUMBER, LARGEST_PRIORITY, LONGEST_SUSPENSION,
    MOST_ROWS, MOST_SUSPENSIONS, SpendRefusal, State, Table, WithdrawRefusal,
};
use analysis::{Answers, JudgeRefusal, Row, Task};
use demand::Kind;

// Whether no row may have this number.
fn is_no_number(number: u32) -> bool
    ensures { result ≡ is_no_number number }
{
    !(1..=LARGEST_NUMBER).contains(&number)
}

// Whether no row may have this priority.
fn is_no_priority(priority: u32) -> bool
    ensures { result ≡ is_no_priority priority }
{
    !(1..=LARGEST_PRIORITY).contains(&priority)
}

// Lets go what stands at these places.
fn clear<K: Drop>(places: &mut [Option<Task<K>>])
    ensures { All (λ place. place ≡ None) places.new }
{
    for place in places.iter_mut() {
        *place = None;
    }
}

// Empties the places that a table may use.
#[tactic(auto, using(crate::proofs::Emptying::emptied))]
fn empty_places<K: Drop>(places: &mut [Option<Task<K>>])
    ensures { Emptied places.old places.new }
{
    let limit = places.len().min(MOST_ROWS);
    clear(&mut places[0..limit]);
}

impl<'a, K: Kind + Drop> Table<'a, K> {
    /// An empty table of this number over row memory, of which it uses the first [`MOST_ROWS`] places at most. What stood at
    /// those is let go, and the places behind them are never touched. Two tables whose holds may meet need two numbers.
    #[tactic(auto, using(crate::proofs::Histories::every_history))]
    pub fn new(number: u8, places: &'a mut [Option<Task<K>>]) -> Table<'a, K>
        ensures agrees { AgreesWith K.demand
            (fresh_account number (min (length places.old) MOST_ROWS)) result }
        ensures history { HasHistory K.demand [] result }
        ensures every_history { EveryHistory K.demand }
        ensures memory { Emptied places.old result.places.now }
        ensures number { result.number ≡ number }
        ensures lent { result.places.ghost_name ≡ places.entry.ghost_name }
    {
        empty_places(places);
        Table {
            number,
            states: [State::Free; MOST_ROWS],
            places,
        }
    }

    // Checks the numbers of a row.
    fn check_row(&self, row: &Row, kind: &K) -> Result<(), HoldRefusal>
        ensures { MatchesAccount K.demand
            (λ a. check_number result
            ≡ first (row_checks a (claim_with K.demand row.now kind.now))) self.now }
    {
        if is_no_number(row.number) || self.has_number(row.number) {
            return Err(HoldRefusal::Number);
        }
        if is_no_priority(row.priority) || self.has_priority(row.priority) {
            return Err(HoldRefusal::Priority);
        }
        let lone = (row.suspension == 0) != (row.suspensions == 0);
        if LONGEST_SUSPENSION < row.suspension || MOST_SUSPENSIONS < row.suspensions || lone {
            return Err(HoldRefusal::Suspension);
        }
        if !(1..=kind.spacing()).contains(&row.deadline) {
            return Err(HoldRefusal::Deadline);
        }
        if any_longer(&row.sections, kind.own()) {
            return Err(HoldRefusal::Section);
        }
        Ok(())
    }

    // Writes a place and its state.
    fn put(&mut self, place: usize, content: Option<Task<K>>, state: State)
        requires { Uses self.old place }
        ensures { PutAt self.old self.new place state content }
    {
        self.places[place] = content;
        self.states[place] = state;
    }

    /// Holds a row, as [`Table::hold`] does, and answers with the hold what [`Table::answers`] then answers for all rows.
    pub fn hold_answered(&mut self, row: Row, kind: K) -> Result<(Hold, Answers), HoldRefusal>
        ensures account { FollowsAccount K.demand
            (λ a b. HoldsAnswered a (claim_with K.demand row kind) result b) self.old self.new }
        ensures history { Continues K.demand
            (holding (claim_with K.demand row kind) (hold_part result)) self.old self.new }
        ensures memory { ChangesOnOk self.old self.new result
            Free (Held row.number) (Some (record { row = row; kind = kind })) }
    {
        self.check_row(&row, &kind)?;
        let place = self.place_in(State::Free).ok_or(HoldRefusal::NoPlace)?;
        let newcomer = Some(Task { row, kind });
        let answers = self.judgement(&newcomer)?;
        self.put(place, newcomer, State::Held(row.number));
        let hold = Hold {
            table: self.number,
            row: row.number,
        };
        Ok((hold, answers))
    }

    /// Takes a row, if all rows are in time with it. It stands as held until its hold is spent. The error is the first check of
    /// [`HoldRefusal`] that applies, 5 to 11 in this order, and then nothing has changed.
    pub fn hold(&mut self, row: Row, kind: K) -> Result<Hold, HoldRefusal>
        ensures account { FollowsAccount K.demand
            (λ a b. Holds a (claim_with K.demand row kind) result b) self.old self.new }
        ensures history { Continues K.demand
            (holding (claim_with K.demand row kind) result) self.old self.new }
        ensures memory { ChangesOnOk self.old self.new result
            Free (Held row.number) (Some (record { row = row; kind = kind })) }
    {
        let (hold, _) = self.hold_answered(row, kind)?;
        Ok(hold)
    }

    // Spends the hold of a row that is held here: the place of the row. Any other hold comes back.
    fn spend(&self, hold: Hold) -> Result<usize, SpendRefusal>
        ensures { MatchResult result (HeldHere self.now hold)
            (λ e. (e ≡ NotHeld hold) × HeldNowhere self.now hold) }
    {
        match self.place_in(State::Held(hold.row)) {
            Some(place) if hold.table == self.number => {
                let Hold { table: _, row: _ } = hold;
                Ok(place)
            }
            _ => Err(SpendRefusal::NotHeld(hold)),
        }
    }

    // Marks the row at a place as kept.
    fn mark_kept(&mut self, place: usize, row: u32)
        requires { Uses self.old place }
        ensures { StateAt self.old self.new place (Kept row) }
    {
        self.states[place] = State::Kept(row);
    }

    /// Spends a hold, and keeps its row. The error (12) comes where the hold is another table's, or its row is not held here: then
    /// the hold comes back, and nothing has changed.
    pub fn keep(&mut self, hold: Hold) -> Result<(), SpendRefusal>
        ensures account { FollowsAccount K.demand
            (λ a b. Spends a hold (with_kept a hold) result b) self.old self.new }
        ensures history { Continues K.demand (keeping hold result) self.old self.new }
        ensures memory { MarksOnOk self.old self.new result (Held hold.row) (Kept hold.row) }
    {
        let row = hold.row;
        let place = self.spend(hold)?;
        self.mark_kept(place, row);
        Ok(())
    }

    /// Spends a hold, and takes its row out. The error (12) comes as that of [`Table::keep`].
    pub fn release(&mut self, hold: Hold) -> Result<(), SpendRefusal>
        ensures account { FollowsAccount K.demand
            (λ a b. Spends a hold (with_released a hold) result b) self.old self.new }
        ensures history { Continues K.demand (releasing hold result) self.old self.new }
        ensures memory { ChangesOnOk self.old self.new result (Held hold.row) Free None }
    {
        let place = self.spend(hold)?;
        self.put(place, None, State::Free);
        Ok(())
    }

    // The place of a kept row, or why there is none.
    fn kept_place(&self, number: u32) -> Result<usize, WithdrawRefusal>
        ensures { MatchResult result (At self.now (λ s. s ≡ Kept number))
            (NoneKept self.now number) }
    {
        match self.place_of(number) {
            None => Err(WithdrawRefusal::NoSuchRow),
            Some(place) if self.states[place] == State::Held(number) => {
                Err(WithdrawRefusal::NotKept)
            }
            Some(place) => Ok(place),
        }
    }

    /// Takes the kept row of this number out. The error comes where no row has the number (13) or the row is held (14), and then
    /// nothing has changed.
    pub fn withdraw(&mut self, number: u32) -> Result<(), WithdrawRefusal>
        ensures account { FollowsAccount K.demand
            (λ a b. Withdraws a number result b) self.old self.new }
        ensures history { Continues K.demand (withdrawing number result) self.old self.new }
        ensures memory { ChangesOnOk self.old self.new result (Kept number) Free None }
    {
        let place = self.kept_place(number)?;
        self.put(place, None, State::Free);
        Ok(())
    }

    /// The bound of the row of this number, in ticks, and the vector that goes with it. The vector says, by one bit for each row
    /// above, in which of two ways that row's jobs are accounted for. The error (13) comes where no row has the number.
    pub fn bound(&self, number: u32) -> Result<(u32, u32), BoundRefusal>
        ensures account { MatchesAccount K.demand (λ a. BoundsAnswered a number result) self.now }
        ensures history { Continues K.demand (bounding number result) self.now self.now }
    {
        // never an error where some account agrees with the table, and only there can that be proved
        let answers = self.answers().map_err(|_| BoundRefusal::NoSuchRow)?;
        find_answer(answers.rows(), number).ok_or(BoundRefusal::NoSuchRow)
    }
}
