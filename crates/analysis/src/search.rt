//! The search for a row's bound and vector.
ghost use Rattle.std.specs.Prelude.{◌^◌, length};
ghost use Rattle.analysis.specs.Candidates.{need_with};
ghost use Rattle.analysis.specs.Plans.{Searched};

use super::cover::need_by;
use super::higher::HigherRows;
use demand::Kind;

// The least window from 1 to the deadline that covers under some vector, with the smallest vector that covers at it.
// Where no vector covers at a window, the next one to try is the least that is needed by it under any vector: what is
// needed never falls as the window grows, so no window between the two covers.
pub(crate) fn search<K: Kind>(
    higher: &HigherRows<'_, K>,
    alone: u64,
    deadline: u32,
) -> Option<(u32, u32)>
    ensures { let vectors = 2 ^ length higher.now.items in
        Searched (need_with K.demand higher.now.items alone) deadline vectors result }
{
    let vectors = 1u32 << higher.len();
    let mut window = 1u64;
    'windows: loop {
        if window > u64::from(deadline) {
            break 'windows None;
        }
        let mut next = u64::MAX;
        'vectors: for vector in 0..vectors {
            let need = need_by(higher, alone, vector, window as u32);
            if need <= window {
                break 'windows Some((window as u32, vector));
            }
            next = next.min(need);
        }
        window = next;
    }
}
