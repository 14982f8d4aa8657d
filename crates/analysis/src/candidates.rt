//! The tasks that are judged together.
ghost use Rattle.std.specs.Prelude.{◌≡◌};
ghost use Rattle.analysis.specs.Candidates.{candidate, demand_of, kind_demand};

use super::Task;
use demand::Kind;

// The tasks at the places that have one, and perhaps a newcomer. The newcomer's place is the one behind the last.
#[derive_where(Clone, Copy)]
pub(crate) struct Candidates<'a, K> {
    pub(crate) places: &'a [Option<Task<K>>],
    pub(crate) newcomer: &'a Option<Task<K>>,
}

impl<'a, K: Kind> Candidates<'a, K> {
    // The kind of the task at a place, if there is one.
    pub(crate) fn kind(&self, place: usize) -> Option<&'a K>
        ensures { kind_demand K.demand result
            ≡ demand_of K.demand (candidate self.now.places.now self.now.newcomer.now place) }
    {
        let task = self.places.get(place).unwrap_or(self.newcomer).as_ref()?;
        Some(&task.kind)
    }
}
