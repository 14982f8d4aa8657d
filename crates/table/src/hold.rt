//! A hold.
ghost use Rattle.std.specs.Prelude.{◌≡◌};

/// A row that a table has taken and that is neither kept nor released yet. Only [`Table::hold`](crate::Table::hold) and
/// `hold_answered` make one, and only `keep` and `release` spend it. It can't be let go or copied: it has to be spent.
#[derive(PartialEq, Eq, Debug)]
pub struct Hold {
    pub(crate) table: u8,
    pub(crate) row: u32,
}

impl Hold {
    /// The number of the table that gave it.
    pub fn table(&self) -> u8
        ensures { result ≡ self.now.table }
    {
        self.table
    }

    /// The number of its row.
    pub fn row(&self) -> u32
        ensures { result ≡ self.now.row }
    {
        self.row
    }
}
