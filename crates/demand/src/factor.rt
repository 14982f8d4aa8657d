//! How many times as long jobs take.
ghost use Rattle.std.specs.Prelude.{◌≡◌, IfOk};
ghost use Rattle.demand.specs.Made.{denominator_of, numerator_of, times_down, times_up};
ghost use Rattle.demand.specs.Refusals.{answer_number, first, slowed_checks};

use super::{KindRefusal, LARGEST_PART, div_up, up_to_cap};

/// How many times as long jobs take: `numerator / denominator`, which is 1 or more.
#[derive(Clone, Copy, PartialEq, Eq, Debug)]
pub struct Factor {
    /// Counts as the nearest from 1 to [`LARGEST_PART`], and as at least the denominator.
    pub numerator: u32,
    /// Counts as the nearest from 1 to [`LARGEST_PART`].
    pub denominator: u32,
}

impl Factor {
    /// The factor with these parts. Refused with [`KindRefusal::Speed`] where they are out of range or the factor is below 1.
    pub fn new(numerator: u32, denominator: u32) -> Result<Factor, KindRefusal>
        ensures refusal { answer_number result ≡ first (slowed_checks numerator denominator) }
        ensures numerator { IfOk result (λ f. f.numerator ≡ numerator) }
        ensures denominator { IfOk result (λ f. f.denominator ≡ denominator) }
    {
        if denominator < 1 || numerator < denominator || LARGEST_PART < numerator {
            return Err(KindRefusal::Speed);
        }
        Ok(Factor {
            numerator,
            denominator,
        })
    }

    // The factor with the parts that count.
    fn nearest(self) -> Factor
        ensures numerator { result.numerator ≡ numerator_of self.numerator self.denominator }
        ensures denominator { result.denominator ≡ denominator_of self.denominator }
    {
        let denominator = self.denominator.clamp(1, LARGEST_PART);
        let numerator = self.numerator.clamp(1, LARGEST_PART).max(denominator);
        Factor {
            numerator,
            denominator,
        }
    }

    // n times the factor, rounded up.
    pub(crate) fn times_up(self, n: u32) -> u32
        ensures { result
            ≡ times_up (numerator_of self.numerator self.denominator)
            (denominator_of self.denominator) n }
    {
        let counted = self.nearest();
        let product = u64::from(n) * u64::from(counted.numerator);
        up_to_cap(div_up(product, u64::from(counted.denominator)))
    }

    // n times the factor, rounded down.
    pub(crate) fn times_down(self, n: u32) -> u32
        ensures { result
            ≡ times_down (numerator_of self.numerator self.denominator)
            (denominator_of self.denominator) n }
    {
        let counted = self.nearest();
        let product = u64::from(n) * u64::from(counted.numerator);
        up_to_cap(product / u64::from(counted.denominator))
    }
}
