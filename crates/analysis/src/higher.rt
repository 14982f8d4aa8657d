//! The rows above one, as it meets them.
ghost use Rattle.std.specs.Prelude.{◌≡◌};
ghost use Rattle.analysis.specs.Candidates.{work_of};

use super::MOST_ROWS;
use arrayvec::ArrayVec;
use demand::Kind;

// A row as a lower row meets it: its kind, how long it waits, and its jitter, which is its bound less its least job. A place
// may have no task, and then there is no kind, which needs nothing; the definitions say so too (`no_demand`).
#[derive_where(Clone, Copy, Default)]
pub(crate) struct Higher<'a, K> {
    pub(crate) kind: Option<&'a K>,
    pub(crate) wait: u64,
    pub(crate) jitter: u64,
}

// The rows above one, highest first.
pub(crate) type HigherRows<'a, K> = ArrayVec<Higher<'a, K>, MOST_ROWS>;

impl<K: Kind> Higher<'_, K> {
    // The work of its kind in a window; without a kind there is none.
    pub(crate) fn work(&self, window: u32) -> u32
        ensures { result ≡ work_of K.demand self.now window }
    {
        self.kind.map_or(0, |kind| kind.work(window))
    }
}
