//! The texts that are written into lent memory.
ghost use Rattle.std.specs.Prelude.{◌≡◌, ◌≤◌, length};
ghost use Rattle.arrayvec.specs.ArrayString.{array_string_len};
ghost use Rattle.planfile.specs.Fault.{blame};
ghost use Rattle.planfile.specs.Report.{HasRoom, Appended, number_field, line_of, report_line, report, Wrote, RefusalWritten};

use super::{Fault, REPORT_MEMORY};
use analysis::Answer;
use arrayvec::ArrayString;
use itoa::Buffer;

// A text that is composed before it is written. Every report fits. Each function asks that there is room for what it appends.
type Text = ArrayString<REPORT_MEMORY>;

// Appends a tab and a number.
fn push_number(text: &mut Text, number: u64)
    requires { HasRoom text.old (number_field number) }
    ensures { Appended text.old (number_field number) text.new }
{
    text.push_str("\t");
    text.push_str(Buffer::new().format(number));
}

// Appends a line of a word and numbers.
fn push_line(text: &mut Text, word: &str, numbers: &[u64])
    requires { HasRoom text.old (line_of word.now numbers.now) }
    ensures { Appended text.old (line_of word.now numbers.now) text.new }
{
    text.push_str(word);
    for number in numbers {
        push_number(text, *number);
    }
    text.push_str("\n");
}

// Appends the line of a row.
fn push_row(text: &mut Text, answer: &Answer)
    requires { HasRoom text.old (report_line answer.now) }
    ensures { Appended text.old (report_line answer.now) text.new }
{
    let numbers = [
        u64::from(answer.number),
        u64::from(answer.bound),
        u64::from(answer.vector),
        answer.blocking,
    ];
    push_line(text, "row", &numbers);
}

// The report of these answers.
fn report_text(answers: &[Answer]) -> Text
    requires { length (report answers.now) ≤ REPORT_MEMORY }
    ensures { result.bytes ≡ report answers.now }
{
    let mut text = Text::new();
    for answer in answers {
        push_row(&mut text, answer);
    }
    text
}

// Writes a text at the start of memory, and answers its length.
fn write_text(text: &Text, out: &mut [u8]) -> usize
    requires { array_string_len text.now ≤ length out.old }
    ensures { Wrote out.old 0 text.now.bytes result out.new }
{
    let bytes = text.as_str().as_bytes();
    out[..bytes.len()].copy_from_slice(bytes);
    bytes.len()
}

// Writes the report of these answers at the start of memory, and answers its length.
pub(crate) fn write_report(answers: &[Answer], out: &mut [u8]) -> usize
    requires fits { length (report answers.now) ≤ REPORT_MEMORY }
    requires room { REPORT_MEMORY ≤ length out.old }
    ensures { Wrote out.old 0 (report answers.now) result out.new }
{
    write_text(&report_text(answers), out)
}

/// Writes the line of a refusal at the start of memory, and answers its length: line, field, number of the check, late row. What
/// stood behind the line stays. An `Err` says that memory has fewer than [`REPORT_MEMORY`] bytes, check 19; then it is as it was.
pub fn write_refusal(fault: Fault, out: &mut [u8]) -> Result<usize, Fault>
    ensures { RefusalWritten (blame fault) out.old result out.new }
{
    if out.len() < REPORT_MEMORY {
        return Err(Fault::ReportMemory);
    }
    let blame = fault.blame();
    let numbers = [
        u64::from(blame.line),
        u64::from(blame.field),
        u64::from(blame.number),
        u64::from(blame.late),
    ];
    let mut text = Text::new();
    push_line(&mut text, "refused", &numbers);
    Ok(write_text(&text, out))
}
