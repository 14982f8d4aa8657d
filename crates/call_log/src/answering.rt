//! A log, answered line by line: [`replay`], and those methods of [`Log`] that answer what it reads.
ghost use Rattle.std.specs.Prelude.{◌≡◌, ◌+◌, ◌≤◌, IfOk, IfSome, OnOk, false};
ghost use Rattle.std.specs.Io.KnownBytes.{Appends};
ghost use Rattle.analysis.specs.declared.TheConstants.{MOST_ROWS};
ghost use Rattle.runs.specs.Desk.{table_of};
ghost use Rattle.runs.specs.Holds.{frame_of};
ghost use Rattle.planfile.specs.Fault.{at_line, line_blame};
ghost use Rattle.planfile.specs.Report.{refusal_line};
ghost use Rattle.planfile.specs.Responses.{response_line};
ghost use Rattle.call_log.specs.Logs.{AnswersLog, clock_due, table_due};
ghost use Rattle.call_log.specs.Reading.{TellsCall};

use super::log::Log;
use super::rows::tell_rows;
use analysis::MOST_ROWS;
use demand::Factor;
use planfile::{
    LineFault, Opening, Request, Response, RowKind, read_clock_line, read_opening, read_request,
};
use runs::{Call, Desk};
use std::alloc::Global;
use std::io::{self, Read, Write};

// What follows a line of an evening.
#[derive(Clone, Copy)]
pub(crate) enum Next {
    // more lines of it
    Line,
    // another evening, at this table
    Table(Opening),
    // nothing: the rest is not looked at
    End,
}

// Tells what a line is answered, in one write: who reads the answers gets no part of a line.
fn tell<W: Write>(heap: Global, out: &mut W, response: Response) -> io::Result<()>
    ensures { OnOk result
        (Appends (W.contents out.old) (W.contents out.new) (response_line response)) }
{
    let text = format!(in heap; "{response}")?;
    out.write_all(text.as_bytes())
}

// Makes a call that stands in this line, and tells what it is answered.
fn make_call<W: Write>(
    heap: Global,
    out: &mut W,
    desk: &mut Desk<'_, RowKind>,
    line: u64,
    call: Call<RowKind>,
) -> io::Result<()>
    ensures told { OnOk result (TellsCall line call (table_of desk.old) (table_of desk.new)
        (W.contents out.old) (W.contents out.new)) }
    ensures frame { frame_of (table_of desk.new) ≡ frame_of (table_of desk.old) }
{
    let row = call.row();
    let reply = desk.call(heap, call)?;
    tell(heap, out, Response::of(line, row, reply))
}

impl<R: Read + Drop> Log<R> {
    ghost use Rattle.call_log.specs.Reading.{AnswersInEvening, AnswersLine, FewPlaces, ReadsDue, SameLog, Tells, bytes_left_of, clock_stage, due_count, due_stage};

    // Refuses the line of this number.
    fn refuse<W: Write>(
        &mut self,
        heap: Global,
        out: &mut W,
        line: u64,
        fault: LineFault,
    ) -> io::Result<()>
        ensures told { OnOk result (Appends (W.contents out.old) (W.contents out.new)
            (refusal_line (at_line line (line_blame fault)))) }
        ensures malformed { self.new.well_formed ≡ false }
        ensures same { SameLog self.old self.new }
    {
        self.well_formed = false;
        tell(heap, out, Response::refusal(line, fault))
    }

    // Reads a line that is due. Where none comes the log is refused.
    fn read_due<W: Write>(&mut self, heap: Global, out: &mut W) -> io::Result<bool>
        ensures line { IfOk result
            (ReadsDue self.old self.new (W.contents out.old) (W.contents out.new)) }
        ensures fewer { OnOk result (bytes_left_of self.new ≤ bytes_left_of self.old) }
    {
        if self.read_line()? {
            return Ok(true);
        }
        self.refuse(heap, out, 0, LineFault::Length)?;
        Ok(false)
    }

    // The table of the line at hand, where a table line is due.
    fn read_table<W: Write>(&mut self, heap: Global, out: &mut W) -> io::Result<Option<Opening>>
        ensures told { IfOk result (λ due. AnswersLine self.old self.new
            (W.contents out.old) (W.contents out.new) table_due (due_stage due)) }
        ensures few { IfOk result (λ due. IfSome due (λ o. o.places ≤ MOST_ROWS)) }
        ensures same { SameLog self.old self.new }
    {
        match read_opening(&self.line) {
            Ok(opening) => Ok(Some(opening)),
            Err(fault) => {
                self.refuse(heap, out, self.number, fault)?;
                Ok(None)
            }
        }
    }

    // Reads the first line, and the table in it.
    fn read_opening<W: Write>(&mut self, heap: Global, out: &mut W) -> io::Result<Option<Opening>>
        ensures tells { IfOk result (λ due. Tells self.old self.new
            (W.contents out.old) (W.contents out.new) table_due (due_stage due)) }
        ensures few { IfOk result (λ due. IfSome due (λ o. o.places ≤ MOST_ROWS)) }
    {
        if !self.read_due(heap, out)? {
            return Ok(None);
        }
        self.read_table(heap, out)
    }

    // Reads the clock line that belongs to a table, and the factor in it.
    fn read_clock<W: Write>(
        &mut self,
        heap: Global,
        out: &mut W,
        opening: Opening,
    ) -> io::Result<Option<Factor>>
        ensures tells { IfOk result (λ clock. Tells self.old self.new
            (W.contents out.old) (W.contents out.new)
            (clock_due opening) (clock_stage opening clock)) }
        ensures fewer { OnOk result (bytes_left_of self.new ≤ bytes_left_of self.old) }
    {
        if !self.read_due(heap, out)? {
            return Ok(None);
        }
        match read_clock_line(&self.line) {
            Ok(clock) => Ok(Some(clock)),
            Err(fault) => {
                self.refuse(heap, out, self.number, fault)?;
                Ok(None)
            }
        }
    }

    // Answers the line at hand, which stands in an evening.
    fn answer<W: Write>(
        &mut self,
        heap: Global,
        out: &mut W,
        clock: Factor,
        desk: &mut Desk<'_, RowKind>,
    ) -> io::Result<Next>
        ensures told { IfOk result (AnswersInEvening self.old self.new
            (W.contents out.old) (W.contents out.new)
            clock (table_of desk.old) (table_of desk.new)) }
        ensures few { IfOk result FewPlaces }
        ensures same { SameLog self.old self.new }
    {
        match read_request(&self.line, clock, desk.table().number()) {
            Ok(Request::Call(call)) => make_call(heap, out, desk, self.number, call)?,
            Ok(Request::Rows) => tell_rows(heap, out, desk)?,
            Ok(Request::Table) => {
                return Ok(match self.read_table(heap, out)? {
                    Some(opening) => Next::Table(opening),
                    None => Next::End,
                });
            }
            Err(fault) => self.refuse(heap, out, self.number, fault)?,
        }
        Ok(Next::Line)
    }

    // Answers the lines of an evening at this table. The answer is the table of the next evening, if one follows.
    fn answer_evening<W: Write>(
        &mut self,
        heap: Global,
        out: &mut W,
        opening: Opening,
    ) -> io::Result<Option<Opening>>
        requires { opening.places ≤ MOST_ROWS }
        ensures tells { IfOk result (λ next. Tells self.old self.new
            (W.contents out.old) (W.contents out.new) (clock_due opening) (due_stage next)) }
        ensures few { IfOk result (λ next. IfSome next (λ o. o.places ≤ MOST_ROWS)) }
        ensures fewer { IfOk result (λ next.
            due_count next + bytes_left_of self.new ≤ bytes_left_of self.old) }
    {
        let Some(clock) = self.read_clock(heap, out, opening)? else {
            return Ok(None);
        };
        let mut places = [None; MOST_ROWS];
        let mut desk = Desk::new(heap, opening.number, &mut places[..opening.places]);
        while self.read_line()? {
            match self.answer(heap, out, clock, &mut desk)? {
                Next::Line => {}
                Next::Table(opening) => return Ok(Some(opening)),
                Next::End => return Ok(None),
            }
        }
        Ok(None)
    }
}

/// Reads a log, and writes what each of its lines is answered before the next line is read. The answer is whether all lines were
/// well formed: refused by none of the checks 1 to 4 and 15 to 18, and none missing where a table line or a clock line is due.
///
/// An error is one of reading or of writing, or want of memory. Nothing is promised then: what was written till then stands, and
/// may be any part of what is written for the log, up to the middle of a line. Nor is anything promised where the bytes of the
/// log are not known beforehand, or of when a byte is read or written.
pub fn replay<R: Read + Drop, W: Write>(heap: Global, log: R, out: &mut W) -> io::Result<bool>
    ensures { IfOk result
        (AnswersLog (R.remaining log) (W.contents out.old) (W.contents out.new)) }
{
    let mut log = Log::new(heap, log);
    let mut due = log.read_opening(heap, out)?;
    while let Some(opening) = due {
        due = log.answer_evening(heap, out, opening)?;
    }
    Ok(log.well_formed)
}
