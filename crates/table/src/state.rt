//! What stands at a place.
ghost use Rattle.std.specs.Prelude.{◌≡◌};
ghost use Rattle.table.specs.Places.{names};

/// What stands at a place of a table.
#[derive(Clone, Copy, PartialEq, Eq, Debug)]
pub enum State {
    /// No row.
    Free,
    /// The row of this number, whose hold is not spent yet.
    Held(u32),
    /// The row of this number, which was kept.
    Kept(u32),
}

impl State {
    // Whether the row of this number stands there.
    pub(crate) fn names(self, number: u32) -> bool
        ensures { result ≡ names self number }
    {
        matches!(self, State::Held(row) | State::Kept(row) if row == number)
    }
}
