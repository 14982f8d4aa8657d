//! What a caller may ask of a table.
ghost use Rattle.std.specs.Prelude.{◌≡◌, ◌+◌, length, IfOk, Ok};
ghost use Rattle.analysis.specs.declared.answers.Answers.{Answers as Listed};
ghost use Rattle.analysis.specs.Judge.{InTime, RowsAnswered, answers_of};
ghost use Rattle.table.specs.Agreement.{MatchesAccount, StateOf};
ghost use Rattle.table.specs.History.{rows_at};

use super::{State, Table};
use analysis::{Answers, JudgeRefusal};
use demand::Kind;

impl<'a, K: Kind + Drop> Table<'a, K> {
    /// The number of the table, which every hold that it gives bears.
    pub fn number(&self) -> u8
        ensures { result ≡ self.now.number }
    {
        self.number
    }

    /// How many rows the table still has room for.
    pub fn room(&self) -> usize
        ensures { MatchesAccount K.demand (λ a. result + length a.rows ≡ a.room) self.now }
    {
        self.free_places()
    }

    /// Number, bound, vector and blocking of all rows, highest priority first. The rows of a table are in time, so this is never
    /// an error.
    pub fn answers(&self) -> Result<Answers, JudgeRefusal>
        ensures account { MatchesAccount K.demand
            (λ a. (all : Listed) × (result ≡ Ok all) × RowsAnswered a.rows (answers_of all))
            self.now }
        ensures in_time { IfOk result
            (λ all. InTime (rows_at K.demand self.now) (answers_of all)) }
    {
        self.judgement(&None)
    }

    /// Whether the row of this number is held or kept, and `Free` where there is no such row.
    pub fn state_of(&self, number: u32) -> State
        ensures { MatchesAccount K.demand (λ a. StateOf a number result) self.now }
    {
        self.state_here(number)
    }
}
