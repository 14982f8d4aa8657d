//! The kind that is one of two.
ghost use Rattle.demand.specs.Made.{either_demand};
ghost use Rattle.demand.specs.Laws.{either_lawful};

use super::Kind;
pub use either::Either;
use either::for_both;

impl<A: Kind, B: Kind> Kind for Either<A, B> {
    ghost demand = { either_demand A.Kind.demand B.Kind.demand };

    ghost lawful = { either_lawful A.Kind.demand B.Kind.demand A.Kind.lawful B.Kind.lawful };

    fn spacing(&self) -> u32 {
        for_both!(self, kind => kind.spacing())
    }

    fn own(&self) -> u32 {
        for_both!(self, kind => kind.own())
    }

    fn least(&self) -> u32 {
        for_both!(self, kind => kind.least())
    }

    fn work(&self, window: u32) -> u32 {
        for_both!(self, kind => kind.work(window))
    }
}
