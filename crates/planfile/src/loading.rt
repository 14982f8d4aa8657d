//! Loading a plan file.
ghost use Rattle.std.specs.Prelude.{◌≡◌, ◌+◌, ◌<◌, ◌≤◌, true, List, [], length, IfOk, IfErr, Ok, Err, MatchResult};
ghost use Rattle.analysis.specs.Ranks.{Claim};
ghost use Rattle.table.specs.Agreement.{AgreesWith};
ghost use Rattle.planfile.specs.Text.{ends_with_newline};
ghost use Rattle.planfile.specs.Fault.{blame, nothing, IsOfNoLine};
ghost use Rattle.planfile.specs.Checks.{row_demand};
ghost use Rattle.planfile.specs.Reading.{account_with, file_blame, LinesRead, RowsKept};
ghost use Rattle.planfile.specs.Loading.{Loaded, AnsweredText};
ghost use Rattle.planfile.specs.Laws.{InFileOrder, OneAnswer, RoundTrip};

use super::reader::Reader;
use super::row::{RowKind, read_clock, take_row};
use super::writing::{write_refusal, write_report};
use super::{Fault, LONGEST_FILE, REPORT_MEMORY};
use analysis::Answers;
use runs::Register;
use table::MOST_ROWS;

// Checks what can be said before a line is read.
fn check_file(file: &[u8], room: usize) -> Result<(), Fault>
    ensures read { MatchResult result
        (λ _. file_blame file.now room ≡ nothing)
        (λ f. file_blame file.now room ≡ blame f) }
    ensures of_no_line { IfErr result IsOfNoLine }
{
    if room < REPORT_MEMORY {
        return Err(Fault::ReportMemory);
    }
    if LONGEST_FILE < file.len() || !file.ends_with(b"\n") {
        return Err(Fault::File);
    }
    Ok(())
}

// The number of the row line of this index. Line 1 is the clock line.
fn number_of_row(index: usize) -> u32
    requires { index < LONGEST_FILE }
    ensures { result ≡ index + 2 }
{
    index as u32 + 2
}

// Takes the rows of a file into a table, in the order of the file. The answers are those of all rows.
fn take_lines(file: &[u8], register: &mut Register<RowKind>) -> Result<Answers, Fault>
    requires short { length file.now ≤ LONGEST_FILE }
    requires ended { ends_with_newline file.now ≡ true }
    requires empty { AgreesWith row_demand (account_with []) register.old.table }
    ensures { MatchResult result
        (λ all. (rows : List Claim)
        × LinesRead file.now (Ok rows)
        × RowsKept rows register.new.table all)
        (λ f. LinesRead file.now (Err (blame f))) }
{
    let mut reader = Reader::new(file);
    let first = reader.next().unwrap();
    let clock = read_clock(&first).map_err(|fault| Fault::Line(1, fault))?;
    // where no row follows
    let mut answers = register.answers();
    for (index, line) in reader.enumerate() {
        let number = number_of_row(index);
        answers = take_row(&line, clock, register).map_err(|fault| Fault::Line(number, fault))?;
    }
    Ok(answers)
}

/// Reads a plan file, and writes its report at the start of the memory lent for it. The answer is the length of the report.
///
/// The report has a line for each row, highest first: its number, its bound in ticks, the vector that gives it, its blocking in
/// ticks. An `Err` is number 19 where memory is shorter than [`REPORT_MEMORY`], else
/// the first fault of the file, from the front; memory is as it was then. What stands behind a report
/// stays.
#[tactic(auto, using(crate::proofs::Loads::by_file, crate::proofs::Loads::by_lines, crate::proofs::FileOrder::in_file_order, crate::proofs::OneAnswer::one_answer, crate::proofs::RoundTrip::round_trip))]
pub fn load(file: &[u8], report: &mut [u8]) -> Result<usize, Fault>
    ensures loaded { Loaded file.now report.old result report.new }
    ensures of_no_line { IfErr result (λ f. (blame f).line ≡ 0 → IsOfNoLine f) }
    ensures in_file_order { InFileOrder file.now report.old result report.new }
    ensures one_answer { OneAnswer file.now (length report.old) result }
    ensures round_trip { RoundTrip file.now report.old result report.new }
{
    check_file(file, report.len())?;
    let mut places = [None; MOST_ROWS];
    let mut register = Register::new(0, &mut places);
    let answers = take_lines(file, &mut register)?;
    Ok(write_report(answers.rows(), report))
}

/// Writes the text that answers a plan file at the start of memory, which is its report or the line of its refusal, and answers
/// the length of the text. The only `Err` is [`Fault::ReportMemory`]; memory is as it was then.
#[tactic(auto, using(crate::proofs::Answering::answered_ok, crate::proofs::Answering::answered_err, crate::proofs::Answering::answer_within))]
pub fn answer(file: &[u8], out: &mut [u8]) -> Result<usize, Fault>
    ensures text { AnsweredText file.now out.old result out.new }
    ensures within { IfOk result (λ n. n ≤ length out.old) }
{
    // A `match`, since `or_else` does not say that `out` stays as it is where its closure is not called.
    match load(file, out) {
        Ok(length) => Ok(length),
        Err(fault) => write_refusal(fault, out),
    }
}
