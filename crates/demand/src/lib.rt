//! Kinds of demand: what the jobs of a task can ask of the processor.
//!
//! Begin at [`Kind`], which is what the analysis asks of a task. [`Every`] and [`Heavy`] are given by numbers; [`Delayed`] and
//! [`Slowed`] are made over any kind, and [`Either`] is one of two. Each `new` checks its numbers and refuses them by a
//! [`KindRefusal`]. A kind that is written as a literal is asked in the same way: a number out of range counts as the nearest in it.
//!
//! All times are whole ticks of 100 microseconds.
#![tactic(auto)]

ghost use Rattle.std.specs.Prelude.{◌≡◌, ◌<◌, ◌≤◌, true, not};
ghost use Rattle.demand.specs.Demand.{Demand, Lawful, div_up, up_to_cap};
ghost use Rattle.demand.specs.Figures.{KindFigures};
ghost use Rattle.demand.specs.Refusals.{is_no_length};

mod choice;
mod delayed;
mod every;
mod factor;
mod heavy;
mod refusal;
mod slowed;
#[cfg(test)]
mod tests;

pub use choice::Either;
pub use delayed::Delayed;
pub use either::{Left, Right};
pub use every::Every;
pub use factor::Factor;
pub use heavy::Heavy;
pub use refusal::KindRefusal;
pub use slowed::Slowed;

/// The longest job, and the most work in a window, that a kind ever answers, in ticks. What would come to more is answered as this.
pub const CAP: u32 = 2_000_000;

/// The longest job and the longest spacing that can be given, in ticks. The shortest of both is 1.
pub const LONGEST: u32 = 1_000_000;

/// The fewest consecutive jobs that have one heavy job among them.
pub const FEWEST_AMONG: u32 = 2;

/// The most consecutive jobs that have one heavy job among them.
pub const MOST_AMONG: u32 = 64;

/// The largest numerator and the largest denominator of a factor.
pub const LARGEST_PART: u32 = 1_000;

/// A kind of demand: what the jobs of a task can ask of the processor. What it answers depends on its value alone, and each
/// question has an answer.
///
/// Whoever writes a kind says what it means by `demand`, and proves by `lawful` that this keeps the laws that the analysis
/// rests on; then rows of it can be judged and kept in tables like those of the kinds of this crate.
pub trait Kind {
    ghost demand: { Self → Demand };

    /// The least time from the release of one job to that of the next, in ticks: 1 to [`LONGEST`].
    fn spacing(&self) -> u32
        ensures { result ≡ (demand self.now).spacing };

    /// The longest job, in ticks: at most [`CAP`].
    fn own(&self) -> u32
        ensures { result ≡ (demand self.now).own };

    /// The shortest job, in ticks: at least 1.
    fn least(&self) -> u32
        ensures { result ≡ (demand self.now).least };

    /// The most work of the jobs in a window of so many ticks, in ticks: at most [`CAP`]. It never falls as the window grows.
    fn work(&self, window: u32) -> u32
        ensures { result ≡ (demand self.now).work window };

    ghost lawful: { (k : Self) → Lawful (demand k) };
}

// Whether n can be given for the length of a job or for a spacing.
fn is_length(n: u32) -> bool
    ensures { result ≡ not (is_no_length n) }
{
    (1..=LONGEST).contains(&n)
}

// n, or the cap where n is above it.
fn up_to_cap(n: u64) -> u32
    ensures { result ≡ up_to_cap n }
{
    n.min(u64::from(CAP)) as u32
}

// n / by, rounded up.
fn div_up(n: u64, by: u64) -> u64
    requires { 0 < by }
    ensures value { result ≡ div_up n by }
    ensures bound { result ≤ n }
{
    n.div_ceil(by)
}

/// Figures that show what the kinds mean, worked out by hand, and the limits of kinds as numbers. The answer is always `true`:
/// the figures are what the contract says.
pub fn kind_figures_hold() -> bool
    ensures answer { result ≡ true }
    ensures figures { KindFigures }
{
    true
}
