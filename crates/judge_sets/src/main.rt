//! Judges sets of rows from standard input, or holds their last row, and prints what is found for each. It is for the benchmark:
//! a set costs what its judgement costs, and little else. `line` has the lines of the input, and `kinds` the kinds of their
//! rows. Times are in ticks of 100 microseconds. Begin with `run`.
#![tactic(auto)]

ghost use Rattle.std.specs.Prelude.{◌≡◌, ◌++◌, string_bytes, OnOk};
ghost use Rattle.judge_sets.specs.Lines.{answer_line};

mod holding;
mod kinds;
mod line;
mod set;

use analysis::{Answer, JudgeRefusal, Task, judge};
use anyhow::anyhow;
use demand::Kind;
use holding::hold_last;
use line::{Line, Question};
use set::{Rows, Set};
use std::alloc::AllocError;
use std::io::{BufRead, BufReader};
use table::HoldRefusal;

// Appends the line of one answer.
fn write_answer(text: &mut String, answer: &Answer) -> Result<(), AllocError>
    ensures { OnOk result
        (string_bytes text.new ≡ string_bytes text.old ++ answer_line answer.now) }
{
    writeln!(
        text,
        "row {} {} {} {}",
        answer.number, answer.bound, answer.vector, answer.blocking
    )
}

// Appends what is found for one set.
fn write_set<K: Kind>(text: &mut String, set: &[Option<Task<K>>]) -> Result<(), AllocError> {
    match judge(set, &None) {
        Ok(answers) => {
            for answer in answers.rows() {
                write_answer(text, answer)?;
            }
        }
        Err(JudgeRefusal::Late(number)) => writeln!(text, "late {number}")?,
        Err(JudgeRefusal::TooMany) => writeln!(text, "too many")?,
    }
    writeln!(text, "end")
}

// Appends what comes of holding the last row of one set.
fn write_holds<K: Kind + Copy + Drop>(
    text: &mut String,
    rows: &mut Rows<K>,
    times: u32,
) -> Result<(), AllocError> {
    match hold_last(&rows.tasks, times, &mut rows.memory) {
        Ok(()) => writeln!(text, "held {times}")?,
        Err(HoldRefusal::Late(number)) => writeln!(text, "late {number}")?,
        Err(refusal) => writeln!(text, "refused {}", refusal.number())?,
    }
    writeln!(text, "end")
}

// Appends what is asked of one set.
fn write_found<K: Kind + Copy + Drop>(
    text: &mut String,
    rows: &mut Rows<K>,
    question: Question,
) -> Result<(), AllocError> {
    match question {
        Question::Judge => write_set(text, &rows.tasks),
        Question::Hold(times) => write_holds(text, rows, times),
    }
}

// The line at an index of the input.
fn line_at(index: usize, text: &str) -> anyhow::Result<Line> {
    let number = index.saturating_add(1);
    text.parse::<Line>()
        .map_err(|error| anyhow!("line {number}: {error}"))
}

fn run(rt: &HostRuntime) -> anyhow::Result<()> {
    let heap = rt.alloc();
    let mut set = Set::new(heap)?;
    let lines = BufReader::new(heap, rt.stdin())?.lines(heap);
    for (index, text) in lines.enumerate() {
        match line_at(index, text?.as_str())? {
            Line::Row(task) => set.push(task)?,
            Line::Ask(question) => {
                let mut found = String::new(heap);
                if set.layered.tasks.is_empty() {
                    write_found(&mut found, &mut set.bare, question)?;
                } else {
                    write_found(&mut found, &mut set.layered, question)?;
                }
                rt.print(found)?;
                set.clear();
            }
        }
    }
    if !set.is_empty() {
        return Err(anyhow!("nothing is asked of the last set"));
    }
    Ok(())
}

fn main(rt: HostRuntime) -> anyhow::Result<()> {
    run(&rt)
}
