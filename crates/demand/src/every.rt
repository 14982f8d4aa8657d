//! The kind whose jobs all take the same time.
ghost use Rattle.std.specs.Prelude.{◌≡◌, IfOk};
ghost use Rattle.demand.specs.Basic.{every_demand};
ghost use Rattle.demand.specs.Refusals.{answer_number, every_checks, first};
ghost use Rattle.demand.specs.Laws.{every_lawful};

use super::{Kind, KindRefusal, LONGEST, div_up, is_length, up_to_cap};

/// Every job takes the time `job`, and jobs are at least `period` apart.
///
/// Both are in ticks, and each counts as the nearest from 1 to [`LONGEST`].
#[derive(Clone, Copy, PartialEq, Eq, Debug)]
pub struct Every {
    /// The length of each job, in ticks.
    pub job: u32,
    /// The least time from one job to the next, in ticks.
    pub period: u32,
}

impl Every {
    /// The kind with these numbers. Refused with [`KindRefusal::Job`] where `job` is out of range, else with
    /// [`KindRefusal::Period`] where `period` is.
    pub fn new(job: u32, period: u32) -> Result<Every, KindRefusal>
        ensures refusal { answer_number result ≡ first (every_checks job period) }
        ensures job { IfOk result (λ k. k.job ≡ job) }
        ensures period { IfOk result (λ k. k.period ≡ period) }
    {
        if !is_length(job) {
            return Err(KindRefusal::Job);
        }
        if !is_length(period) {
            return Err(KindRefusal::Period);
        }
        Ok(Every { job, period })
    }
}

impl Kind for Every {
    ghost demand = { every_demand };

    ghost lawful = { λ k. every_lawful k.job k.period };

    fn spacing(&self) -> u32 {
        self.period.clamp(1, LONGEST)
    }

    fn own(&self) -> u32 {
        self.job.clamp(1, LONGEST)
    }

    fn least(&self) -> u32 {
        self.own()
    }

    fn work(&self, window: u32) -> u32 {
        let jobs = div_up(u64::from(window), u64::from(self.spacing()));
        up_to_cap(jobs * u64::from(self.own()))
    }
}
