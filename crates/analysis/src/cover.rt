//! What a row needs by a window, under a vector. Sums beyond u64 count as its largest number.
ghost use Rattle.std.specs.Prelude.{◌≡◌, ◌+◌, if◌then◌else◌};
ghost use Rattle.demand.specs.Demand.{window as in_u32};
ghost use Rattle.analysis.specs.Candidates.{need_with, work_of};
ghost use Rattle.analysis.specs.Cover.{sum_in_u64};

use super::higher::{Higher, HigherRows};
use demand::Kind;

// The waits of the rows with a 1, and all that is needed, as far as the rows were added.
#[derive(Clone, Copy)]
struct Sum {
    waits: u64,
    need: u64,
}

impl Sum {
    // With one higher row more; `as_work` says that its bit is 1.
    fn with_row<K: Kind>(self, row: &Higher<'_, K>, as_work: bool, window: u32) -> Sum
        ensures waits { result.waits
            ≡ sum_in_u64 (self.waits + (if as_work then row.now.wait else 0)) }
        ensures need { let jitter = if as_work then 0 else row.now.jitter in
            let longer = window + result.waits + jitter in
            result.need ≡ sum_in_u64 (self.need + work_of K.demand row.now (in_u32 longer)) }
    {
        let (wait, jitter) = if as_work {
            (row.wait, 0)
        } else {
            (0, row.jitter)
        };
        let waits = self.waits.saturating_add(wait);
        let longer = u64::from(window)
            .saturating_add(waits)
            .saturating_add(jitter);
        let work = row.work(longer.min(u64::from(u32::MAX)) as u32);
        Sum {
            waits,
            need: self.need.saturating_add(u64::from(work)),
        }
    }
}

// What a row needs by the window under the vector: `alone`, its own job and its wait, and the work of the rows above it.
pub(crate) fn need_by<K: Kind>(
    higher: &HigherRows<'_, K>,
    alone: u64,
    vector: u32,
    window: u32,
) -> u64
    ensures { result ≡ sum_in_u64 (need_with K.demand higher.now.items alone vector window) }
{
    let mut sum = Sum {
        waits: 0,
        need: alone,
    };
    for (i, row) in higher.iter().enumerate().rev() {
        let as_work = (vector >> i) % 2 == 1;
        sum = sum.with_row(row, as_work, window);
    }
    sum.need
}
