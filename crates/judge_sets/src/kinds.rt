//! The kinds of demand that a row can have: jobs under two layers at most. Each begins with a word.
use super::line::{LineError, number};
use demand::{Delayed, Either, Every, Factor, Heavy, Left, Right, Slowed};
use std::str::Split;

// The jobs inside all layers.
pub(crate) type Jobs = Either<Every, Heavy>;

// A kind, or one layer around it.
type Layered<K> = Either<K, Either<Delayed<K>, Slowed<K>>>;

// The kinds of the rows. The outer layer is read first.
pub(crate) type Demand = Layered<Layered<Jobs>>;

// A kind that is read from a word and the fields behind it.
pub(crate) trait FromFields: Sized {
    // The kind that is these jobs, under no layer.
    fn from_jobs(jobs: Jobs) -> Self;

    fn from_fields(word: Option<&str>, fields: &mut Split<'_, char>) -> Result<Self, LineError>;
}

impl FromFields for Jobs {
    fn from_jobs(jobs: Jobs) -> Jobs {
        jobs
    }

    fn from_fields(word: Option<&str>, fields: &mut Split<'_, char>) -> Result<Jobs, LineError> {
        match word {
            Some("every") => Ok(Left(every(fields)?)),
            Some("heavy") => Ok(Right(heavy(fields)?)),
            _ => Err(LineError::Kind),
        }
    }
}

impl<K: FromFields> FromFields for Layered<K> {
    fn from_jobs(jobs: Jobs) -> Layered<K> {
        Left(K::from_jobs(jobs))
    }

    fn from_fields(
        word: Option<&str>,
        fields: &mut Split<'_, char>,
    ) -> Result<Layered<K>, LineError> {
        match word {
            Some("delayed") => Ok(Right(Left(delayed(fields)?))),
            Some("slowed") => Ok(Right(Right(slowed(fields)?))),
            _ => Ok(Self::from_jobs(Jobs::from_fields(word, fields)?)),
        }
    }
}

fn delayed<K: FromFields>(fields: &mut Split<'_, char>) -> Result<Delayed<K>, LineError> {
    let delay = number(fields)?;
    let kind = K::from_fields(fields.next(), fields)?;
    Ok(Delayed { kind, delay })
}

fn slowed<K: FromFields>(fields: &mut Split<'_, char>) -> Result<Slowed<K>, LineError> {
    let factor = factor(fields)?;
    let kind = K::from_fields(fields.next(), fields)?;
    Ok(Slowed { kind, factor })
}

fn factor(fields: &mut Split<'_, char>) -> Result<Factor, LineError> {
    Ok(Factor {
        numerator: number(fields)?,
        denominator: number(fields)?,
    })
}

fn every(fields: &mut Split<'_, char>) -> Result<Every, LineError> {
    Ok(Every {
        job: number(fields)?,
        period: number(fields)?,
    })
}

fn heavy(fields: &mut Split<'_, char>) -> Result<Heavy, LineError> {
    Ok(Heavy {
        job: number(fields)?,
        heavy: number(fields)?,
        among: number(fields)?,
        period: number(fields)?,
    })
}
