//! A table that task rows enter and leave while it runs. A start request holds a row first, if all rows stay in time with it,
//! and keeps or releases it later.
//!
//! Begin with [`Table::new`], over row memory that the caller lends, and with [`Table::hold`]. A hold answers a [`Hold`], which
//! can't be let go: it is given to [`Table::keep`], where the row stays, or to [`Table::release`], where it goes out. A row that
//! was kept goes out by [`Table::withdraw`]. [`Table::bound`] and [`Table::answers`] say what is guaranteed to the rows.
//!
//! Times are in ticks of 100 microseconds. No call allocates.
#![tactic(auto)]

mod calls;
mod hold;
mod lookup;
mod refusals;
mod state;
#[cfg(test)]
mod tests;
mod views;

use analysis::Task;
pub use hold::Hold;
pub use refusals::{BoundRefusal, HoldRefusal, SpendRefusal, WithdrawRefusal};
pub use state::State;

/// The most rows that a table takes: as many as are judged together.
pub use analysis::MOST_ROWS;

/// The largest number that a row may have. The smallest is 1.
pub const LARGEST_NUMBER: u32 = 255;

/// The largest priority that a row may have. The smallest is 1.
pub const LARGEST_PRIORITY: u32 = 255;

/// The longest that one job of a row may suspend itself, all its suspensions together, in ticks.
pub const LONGEST_SUSPENSION: u32 = 1_000_000;

/// How often one job of a row may suspend itself.
pub const MOST_SUSPENSIONS: u32 = 63;

// The states stand beside the memory and not in it, since the caller lends places of `Option<Task<K>>`.
// The table carries no account, and what the calls promise is of every account that agrees with it: a caller may know the
// same table by an account with its rows in another order, so a promise about one account that is carried would be less.
// Nor can a ghost field carry one: its rows have the meanings of kinds, which are functions, and those have no code.
/// A table over row memory that the caller lends, with rows of the kind `K`. It uses the first [`MOST_ROWS`] places at most,
/// a place for each row. Together its rows are in time at any moment.
#[derive(Drop)]
pub struct Table<'a, K> {
    number: u8,
    states: [State; MOST_ROWS],
    places: &'a mut [Option<Task<K>>],
}
