//! The kind with one heavy job among so many.
ghost use Rattle.std.specs.Prelude.{◌≡◌, ◌^◌, ◌<◌, IfOk};
ghost use Rattle.demand.specs.Basic.{from_heavy, heavy_demand, largest_total, length_of_heavy, length_of_job, length_of_pattern};
ghost use Rattle.demand.specs.Refusals.{answer_number, first, heavy_checks};
ghost use Rattle.demand.specs.Laws.{heavy_lawful};

use super::{FEWEST_AMONG, Kind, KindRefusal, LONGEST, MOST_AMONG, div_up, is_length, up_to_cap};

/// One of each `among` consecutive jobs takes the time `heavy`, the others take `job`, and jobs are at least `period` apart.
///
/// Times are in ticks, and each counts as the nearest from 1 to [`LONGEST`], `heavy` as at least `job`; `among` counts as the
/// nearest from [`FEWEST_AMONG`] to [`MOST_AMONG`].
#[derive(Clone, Copy, PartialEq, Eq, Debug)]
pub struct Heavy {
    /// The length of a job that is not heavy, in ticks.
    pub job: u32,
    /// The length of a heavy job, in ticks.
    pub heavy: u32,
    /// How many consecutive jobs have one heavy job among them.
    pub among: u32,
    /// The least time from one job to the next, in ticks.
    pub period: u32,
}

impl Heavy {
    /// The kind with these numbers. Refused with [`KindRefusal::Job`] where a length is out of range or `heavy` is below `job`,
    /// else with [`KindRefusal::Period`] where `period` or `among` is out of range.
    pub fn new(job: u32, heavy: u32, among: u32, period: u32) -> Result<Heavy, KindRefusal>
        ensures refusal { answer_number result ≡ first (heavy_checks job heavy among period) }
        ensures job { IfOk result (λ k. k.job ≡ job) }
        ensures heavy { IfOk result (λ k. k.heavy ≡ heavy) }
        ensures among { IfOk result (λ k. k.among ≡ among) }
        ensures period { IfOk result (λ k. k.period ≡ period) }
    {
        if !is_length(job) || !is_length(heavy) || heavy < job {
            return Err(KindRefusal::Job);
        }
        if !is_length(period) || !(FEWEST_AMONG..=MOST_AMONG).contains(&among) {
            return Err(KindRefusal::Period);
        }
        Ok(Heavy {
            job,
            heavy,
            among,
            period,
        })
    }

    // How many consecutive jobs count as having one heavy job among them.
    fn pattern(&self) -> u64
        ensures { result ≡ length_of_pattern self.now.among }
    {
        u64::from(self.among.clamp(FEWEST_AMONG, MOST_AMONG))
    }

    // The largest total of consecutive jobs: that of those that begin with a heavy one, since no others take more.
    fn largest_total(&self, jobs: u64) -> u64
        requires { jobs < 2 ^ 32 }
        ensures from_heavy { result
            ≡ from_heavy (length_of_job self.now.job)
            (length_of_heavy self.now.job self.now.heavy)
            (length_of_pattern self.now.among) jobs }
        ensures largest { result
            ≡ largest_total (length_of_job self.now.job)
            (length_of_heavy self.now.job self.now.heavy)
            (length_of_pattern self.now.among) jobs }
    {
        let job = u64::from(self.least());
        let heavy = u64::from(self.own());
        jobs * job + div_up(jobs, self.pattern()) * (heavy - job)
    }
}

impl Kind for Heavy {
    ghost demand = { heavy_demand };

    ghost lawful = { λ k. heavy_lawful k.job k.heavy k.among k.period };

    fn spacing(&self) -> u32 {
        self.period.clamp(1, LONGEST)
    }

    fn own(&self) -> u32 {
        self.heavy.clamp(1, LONGEST).max(self.least())
    }

    fn least(&self) -> u32 {
        self.job.clamp(1, LONGEST)
    }

    fn work(&self, window: u32) -> u32 {
        let jobs = div_up(u64::from(window), u64::from(self.spacing()));
        up_to_cap(self.largest_total(jobs))
    }
}
