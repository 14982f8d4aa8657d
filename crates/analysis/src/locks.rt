//! Ceilings of locks, and how long a row can be blocked.
ghost use Rattle.std.specs.Prelude.{◌≡◌, ℕ, ◌+◌, ◌*◌, ◌^◌, ◌<◌, ◌≤◌, length, if◌then◌else◌};
ghost use Rattle.analysis.specs.Locks.{ceiling, ceiling_at, greater_of, longest_in, longest_in_row, reaches};
ghost use Rattle.analysis.specs.Places.{ranked_rows};

use super::{LOCKS, Rank, Row};
use std::array;

// The greater of a priority and the greatest found so far, if any.
fn greater_of(priority: u32, found: Option<u32>) -> u32
    ensures { result ≡ greater_of priority found }
{
    found.map_or(priority, |top| priority.max(top))
}

// The greatest priority among the rows that use the lock, if any does.
#[tactic(auto, using(crate::proofs::Greatest::ceiling_more))]
fn ceiling_of(ranks: &[Rank], lock: usize) -> Option<u32>
    requires { lock < LOCKS }
    ensures { result ≡ ceiling (ranked_rows ranks.now) lock }
{
    let mut ceiling = None;
    for rank in ranks {
        if rank.row.sections[lock] != 0 {
            ceiling = Some(greater_of(rank.row.priority, ceiling));
        }
    }
    ceiling
}

/// The ceiling of each lock, by its number: the greatest priority among the rows that use it, or `None` where no row does.
///
/// The ranks may stand in any order, and their places do not matter.
pub fn ceilings_of(ranks: &[Rank]) -> [Option<u32>; LOCKS]
    ensures count { length result ≡ LOCKS }
    ensures each { (lock : ℕ) → lock < LOCKS
        → ceiling_at result lock ≡ ceiling (ranked_rows ranks.now) lock }
{
    array::from_fn(|lock| ceiling_of(ranks, lock))
}

// The section, if the lock's ceiling is at least the priority.
fn blocking_section(section: u32, ceiling: Option<u32>, priority: u32) -> u32
    ensures { result ≡ (if reaches ceiling priority then section else 0) }
{
    match ceiling {
        Some(top) if top >= priority => section,
        _ => 0,
    }
}

// The longest section of the row on a lock whose ceiling is at least the priority.
fn longest_section(ceilings: &[Option<u32>; LOCKS], priority: u32, row: &Row) -> u32
    ensures { result ≡ longest_in_row (ceiling_at ceilings.now) priority row.now LOCKS }
{
    let mut longest = 0;
    for (lock, ceiling) in ceilings.iter().enumerate() {
        longest = longest.max(blocking_section(row.sections[lock], *ceiling, priority));
    }
    longest
}

// The longest section of these rows that can block the priority.
#[tactic(auto, using(crate::proofs::Greatest::longest_more))]
fn longest_of_all(ceilings: &[Option<u32>; LOCKS], priority: u32, rows: &[Rank]) -> u32
    ensures { result ≡ longest_in (ceiling_at ceilings.now) priority (ranked_rows rows.now) }
{
    let mut longest = 0;
    for rank in rows {
        longest = longest.max(longest_section(ceilings, priority, &rank.row));
    }
    longest
}

// How long the row can be blocked by those below it: when a job starts, and again each time that it comes back from a
// suspension.
pub(crate) fn blocking_of(ceilings: &[Option<u32>; LOCKS], row: &Row, lower: &[Rank]) -> u64
    ensures bound { result + 2 ^ 32 ≤ 2 ^ 64 }
    ensures value { result
        ≡ (row.now.suspensions + 1)
        * longest_in (ceiling_at ceilings.now) row.now.priority (ranked_rows lower.now) }
{
    let longest = longest_of_all(ceilings, row.priority, lower);
    (u64::from(row.suspensions) + 1) * u64::from(longest)
}
