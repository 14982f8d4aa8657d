//! The kind whose job comes once.
ghost use Rattle.own_kind.specs.Once.{once_demand, once_lawful};

use demand::{Kind, LONGEST};

// One job in all, as the test of a contactor when the cabinet starts. A length out of range counts as the nearest in it.
#[derive(Clone, Copy)]
pub(crate) struct Once {
    pub(crate) job: u32,
}

impl Kind for Once {
    // what a value means, and that it keeps the laws; all else about the calls is the contracts of `Kind`
    ghost demand = { once_demand };

    ghost lawful = { λ k. once_lawful k.job };

    // no job comes after it: the longest spacing there is
    fn spacing(&self) -> u32 {
        LONGEST
    }

    fn own(&self) -> u32 {
        self.job.clamp(1, LONGEST)
    }

    fn least(&self) -> u32 {
        self.own()
    }

    fn work(&self, window: u32) -> u32 {
        if window == 0 { 0 } else { self.own() }
    }
}
