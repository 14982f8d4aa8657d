//! What is answered for a set that is in time.
ghost use Rattle.std.specs.Prelude.{◌≡◌, ◌+◌, ◌<◌, ◌≤◌, [], ◌∷◌, ◌++◌};
ghost use Rattle.analysis.specs.declared.TheConstants.{MOST_ROWS};

use super::{Answer, MOST_ROWS};

/// The answers for the rows of a set that is in time: as many as there are rows, so at most [`MOST_ROWS`].
// The entries behind the count are always the default, so the derived comparison goes by the rows.
#[derive(Clone, Copy, Debug, PartialEq, Eq)]
pub struct Answers {
    pub(crate) count: usize,
    pub(crate) rows: [Answer; MOST_ROWS],
    ghost in_range: { count ≤ MOST_ROWS },
}

impl Answers {
    ghost use Rattle.analysis.specs.Judge.{answers_of};

    // No answer yet.
    pub(crate) fn none() -> Answers
        ensures count { result.count ≡ 0 }
        ensures answers { answers_of result ≡ [] }
    {
        Answers {
            count: 0,
            rows: [Answer::default(); MOST_ROWS],
        }
    }

    // One answer more.
    pub(crate) fn push(&mut self, answer: Answer)
        requires { self.old.count < MOST_ROWS }
        ensures count { self.new.count ≡ self.old.count + 1 }
        ensures answers { answers_of self.new ≡ answers_of self.old ++ answer ∷ [] }
    {
        self.rows[self.count] = answer;
        self.count += 1;
    }

    /// The answers, one for each row, highest priority first.
    pub fn rows(&self) -> &[Answer]
        ensures { result.now ≡ answers_of self.now }
    {
        &self.rows[..self.count]
    }
}
