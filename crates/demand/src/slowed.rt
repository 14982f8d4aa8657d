//! The kind whose jobs take longer, by a factor.
ghost use Rattle.std.specs.Prelude.{◌≡◌, IfOk};
ghost use Rattle.demand.specs.Made.{slowed_demand};
ghost use Rattle.demand.specs.Refusals.{answer_number, first, slowed_checks};
ghost use Rattle.demand.specs.Laws.{slowed_lawful};

use super::{Factor, Kind, KindRefusal};

/// The jobs of `kind`, each longer by the factor. The longest job and the work are rounded up, the shortest job is rounded
/// down, and what comes to more than [`CAP`](super::CAP) is answered as that.
#[derive(Clone, Copy, PartialEq, Eq, Debug, Drop)]
pub struct Slowed<K> {
    /// The kind below.
    pub kind: K,
    /// How many times as long its jobs take.
    pub factor: Factor,
}

impl<K: Kind + Drop> Slowed<K> {
    /// The kind, slowed by the factor with these parts, or the refusal of [`Factor::new`]. With a factor at hand, write a literal.
    pub fn new(kind: K, numerator: u32, denominator: u32) -> Result<Slowed<K>, KindRefusal>
        ensures refusal { answer_number result ≡ first (slowed_checks numerator denominator) }
        ensures kind { IfOk result (λ k. k.kind ≡ kind) }
        ensures numerator { IfOk result (λ k. k.factor.numerator ≡ numerator) }
        ensures denominator { IfOk result (λ k. k.factor.denominator ≡ denominator) }
    {
        let factor = Factor::new(numerator, denominator)?;
        Ok(Slowed { kind, factor })
    }
}

impl<K: Kind> Kind for Slowed<K> {
    ghost demand = { slowed_demand K.Kind.demand };

    ghost lawful = { λ k. slowed_lawful k.factor.numerator k.factor.denominator
        (K.Kind.demand k.kind) (K.Kind.lawful k.kind) };

    fn spacing(&self) -> u32 {
        self.kind.spacing()
    }

    fn own(&self) -> u32 {
        self.factor.times_up(self.kind.own())
    }

    fn least(&self) -> u32 {
        self.factor.times_down(self.kind.least())
    }

    fn work(&self, window: u32) -> u32 {
        self.factor.times_up(self.kind.work(window))
    }
}
