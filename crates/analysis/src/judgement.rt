//! Whether a set of tasks meets its deadlines.
ghost use Rattle.std.specs.Prelude.{◌≡◌, ◌+◌, ◌^◌, ◌≤◌, length};
ghost use Rattle.analysis.specs.Candidates.{RanksAll, claims, kind_demand};
ghost use Rattle.analysis.specs.Judge.{Judged, RankJudged, judge_number};
ghost use Rattle.analysis.specs.Plans.{LateExactlyWhenNoPlan};
ghost use Rattle.analysis.specs.Ranks.{ranking, system_of, AnyOrder, HighestFirst};
ghost use Rattle.analysis.specs.Removal.{RemovalKeepsInTime};

use super::answers::Answers;
use super::candidates::Candidates;
use super::higher::{Higher, HigherRows};
use super::locks::{blocking_of, ceilings_of};
use super::search::search;
use super::{Answer, MOST_ROWS, Rank, Task};
use demand::Kind;
use std::error::Error;
use std::fmt;

// The longest and the shortest job of a kind; both 0 where there is none.
fn jobs_of<K: Kind>(kind: Option<&K>) -> (u32, u32)
    ensures own { result.0 ≡ (kind_demand K.demand kind.entry).own }
    ensures least { result.1 ≡ (kind_demand K.demand kind.entry).least }
{
    kind.map_or((0, 0), |kind| (kind.own(), kind.least()))
}

impl<'a, K: Kind> Candidates<'a, K> {
    // The answer for one rank, and the row as those below meet it.
    fn judge_rank(
        &self,
        higher: &HigherRows<'a, K>,
        rank: &Rank,
        blocking: u64,
    ) -> Option<(Answer, Higher<'a, K>)>
        requires { blocking + 2 ^ 32 ≤ 2 ^ 64 }
        ensures { RankJudged K.demand self.now.places.now self.now.newcomer.now
            higher.now.items rank.now blocking result }
    {
        let wait = u64::from(rank.row.suspension) + blocking;
        let kind = self.kind(rank.place);
        let (own, least) = jobs_of(kind);
        let alone = wait.saturating_add(u64::from(own));
        let (bound, vector) = search(higher, alone, rank.row.deadline)?;
        let answer = Answer {
            number: rank.row.number,
            bound,
            vector,
            blocking,
        };
        let met = Higher {
            kind,
            wait,
            jitter: u64::from(bound.saturating_sub(least)),
        };
        Some((answer, met))
    }

    // The answers for all of them, by their ranks, unless some row is late.
    fn judge_ranked(&self, ranks: &[Rank]) -> Result<Answers, JudgeRefusal>
        requires few { length ranks.now ≤ MOST_ROWS }
        requires ranked { RanksAll K.demand self.now.places.now self.now.newcomer.now ranks.now }
        ensures { Judged (claims K.demand self.now.places.now self.now.newcomer.now) result }
    {
        let ceilings = ceilings_of(ranks);
        let mut answers = Answers::none();
        let mut higher = HigherRows::new();
        for (k, rank) in ranks.iter().enumerate() {
            let blocking = blocking_of(&ceilings, &rank.row, &ranks[k + 1..]);
            let (answer, met) = self
                .judge_rank(&higher, rank, blocking)
                .ok_or(JudgeRefusal::Late(rank.row.number))?;
            answers.push(answer);
            higher.push(met);
        }
        Ok(answers)
    }

    // The answers for all of them, unless they are too many or some row is late.
    fn judge_all(&self) -> Result<Answers, JudgeRefusal>
        ensures { Judged (claims K.demand self.now.places.now self.now.newcomer.now) result }
    {
        let ranks = self.ranks()?;
        self.judge_ranked(ranks.as_slice())
    }
}

/// Why a set of tasks gets no answers.
#[derive(Clone, Copy, PartialEq, Eq, Debug)]
pub enum JudgeRefusal {
    /// Number 10: there are more than [`MOST_ROWS`] rows.
    TooMany,
    /// Number 11: some row is late, which means that no window up to its deadline covers what is needed by it. The number is
    /// that of the highest such row.
    Late(u32),
}

impl fmt::Display for JudgeRefusal {
    fn fmt<W: fmt::Write>(&self, f: &mut fmt::Formatter<W>) -> fmt::Result {
        match self {
            JudgeRefusal::TooMany => write!(f, "check 10: there are more than {MOST_ROWS} rows"),
            JudgeRefusal::Late(number) => write!(f, "check 11: row {number} can miss its deadline"),
        }
    }
}

impl Error for JudgeRefusal {}

impl JudgeRefusal {
    /// The number of the check: 10 for too many rows and 11 for a late one, as a table numbers these two.
    pub fn number(self) -> u32
        ensures { result ≡ judge_number self }
    {
        match self {
            JudgeRefusal::TooMany => 10,
            JudgeRefusal::Late(_) => 11,
        }
    }
}

/// Judges the tasks at the places and the newcomer, if any, together: their answers, highest priority first, where all rows
/// are in time.
///
/// It is refused by number 10 where there are more than [`MOST_ROWS`] rows, and else by number 11 where some row is late. The
/// numbers of the rows may be any, and those of two rows may be the same. What is answered depends on the arguments alone.
#[tactic(auto, using(crate::proofs::AnyOrder::any_order))]
pub fn judge<K: Kind>(
    places: &[Option<Task<K>>],
    newcomer: &Option<Task<K>>,
) -> Result<Answers, JudgeRefusal>
    ensures judged { Judged (claims K.demand places.now newcomer.now) result }

    // These hold of any rows, whatever is answered.
    ensures late_exactly_when_no_plan { LateExactlyWhenNoPlan
        (system_of (claims K.demand places.now newcomer.now)) }
    ensures removal_keeps_in_time { RemovalKeepsInTime (claims K.demand places.now newcomer.now) }
    ensures any_order { AnyOrder (claims K.demand places.now newcomer.now) }
    ensures highest_first { let rows = claims K.demand places.now newcomer.now in
        HighestFirst rows (ranking rows) }
{
    let candidates = Candidates { places, newcomer };
    candidates.judge_all()
}
