//! What is told of all rows of a table.
ghost use Rattle.std.specs.Prelude.{◌≡◌, ◌++◌, OnOk, string_bytes};
ghost use Rattle.table.specs.Account.{has_hold_on};
ghost use Rattle.table.specs.Agreement.{MatchesAccount};
ghost use Rattle.runs.specs.Desk.{table_of};
ghost use Rattle.planfile.specs.Checks.{row_demand};
ghost use Rattle.call_log.specs.Logs.{rows_text};
ghost use Rattle.call_log.specs.Reading.{TellsRows};

use analysis::Answer;
use planfile::{Response, RowKind};
use runs::Desk;
use std::alloc::{AllocError, Global};
use std::io::{self, Write};
use table::State;

// Whether a row is held. A row that is not stands as kept.
fn is_held(desk: &Desk<'_, RowKind>, number: u32) -> bool
    ensures { MatchesAccount row_demand
        (λ a. result ≡ has_hold_on number a.holds) (table_of desk.now) }
{
    matches!(desk.table().state_of(number), State::Held(_))
}

// Appends the lines of these answers for rows of the table.
fn push_rows(
    desk: &Desk<'_, RowKind>,
    answers: &[Answer],
    text: &mut String,
) -> Result<(), AllocError>
    ensures { OnOk result (MatchesAccount row_demand
        (λ a. string_bytes text.new ≡ string_bytes text.old ++ rows_text a answers.now)
        (table_of desk.now)) }
{
    for answer in answers {
        let row = Response::Row {
            answer: *answer,
            held: is_held(desk, answer.number),
        };
        write!(text, "{row}")?;
    }
    Ok(())
}

// Tells all rows, highest first.
pub(crate) fn tell_rows<W: Write>(
    heap: Global,
    out: &mut W,
    desk: &Desk<'_, RowKind>,
) -> io::Result<()>
    ensures { OnOk result
        (TellsRows (table_of desk.now) (W.contents out.old) (W.contents out.new)) }
{
    let answers = desk.answers();
    let mut text = String::new(heap);
    push_rows(desk, answers.rows(), &mut text)?;
    out.write_all(text.as_bytes())
}
