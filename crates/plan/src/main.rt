//! Prints the report of plan files, or the line of a file's refusal, from the files named as arguments or from standard input.
#![tactic(auto)]

ghost use Rattle.std.specs.Prelude.{◌≡◌, ◌≢◌, ◌≤◌, length, Ok, Err};
ghost use Rattle.planfile.specs.declared.fault.Blame.{Blame};
ghost use Rattle.planfile.specs.Reading.{FileRead};
ghost use Rattle.planfile.specs.Report.{refusal_line, Wrote};
ghost use Rattle.planfile.specs.Loading.{Loaded};
ghost use Rattle.plan.specs.declared.Outcome.TheVariants.{Reported, Refused, Failed};

mod help;
#[cfg(test)]
mod tests;

use anyhow::{Context, anyhow};
use help::HELP;
use planfile::{LONGEST_FILE, REPORT_MEMORY, load, write_refusal};
use std::env;
use std::fs::File;
use std::io::{self, Read};
use std::process::ExitCode;

// How it went with some plan files, the better first. The number is the exit status.
#[derive(Clone, Copy, PartialEq, Eq, PartialOrd, Ord)]
enum Outcome {
    // every file has its report
    Reported = 0,
    // some file is refused
    Refused = 1,
    // reading or writing failed
    Failed = 2,
}

// The bytes of a plan file. One more is read than it may have, so that a longer file is seen and an endless one is not awaited.
fn read_plan<R: Read + Drop>(rt: &HostRuntime, input: R) -> io::Result<Vec<u8>> {
    let mut file = Vec::new(rt.alloc());
    input.take(LONGEST_FILE as u64 + 1).read_to_end(&mut file)?;
    Ok(file)
}

// Writes the report of a plan file at the start of memory, or the line of its refusal. The number is the length of the text.
fn write_answer(file: &[u8], text: &mut [u8]) -> (Outcome, usize)
    requires { REPORT_MEMORY ≤ length text.old }
    ensures reported { result.0 ≡ Reported → Loaded file.now text.old (Ok result.1) text.new }
    ensures refused { result.0 ≡ Refused →
        (b : Blame) × FileRead file.now (length text.old) (Err b)
        × Wrote text.old 0 (refusal_line b) result.1 text.new }
    ensures answered { result.0 ≢ Failed }
    ensures within { result.1 ≤ length text.new }
{
    match load(file, text) {
        Ok(length) => (Outcome::Reported, length),
        Err(fault) => (Outcome::Refused, write_refusal(fault, text).unwrap()),
    }
}

fn print_answer(rt: &HostRuntime, file: &[u8]) -> io::Result<Outcome> {
    let mut text = [0u8; REPORT_MEMORY];
    let (outcome, length) = write_answer(file, &mut text);
    rt.write_all(&text[..length])?;
    Ok(outcome)
}

// Says on standard error what went wrong. If that fails too, the exit status still says it.
fn complain(rt: &HostRuntime, error: &anyhow::Error) -> Outcome {
    let _ = eprintln!(rt; "plan: {error:#}");
    Outcome::Failed
}

// Prints the name of a file and what answers it, or says that it cannot be read. An error is one of writing.
fn answer_file(rt: &HostRuntime, name: &str) -> io::Result<Outcome> {
    let read = File::open(rt, name).and_then(|file| read_plan(rt, file));
    match read.context(format_args!("{name}")) {
        Ok(file) => {
            println!(rt; "{name}")?;
            print_answer(rt, &file)
        }
        Err(error) => Ok(complain(rt, &error)),
    }
}

// Answers each file in turn. One that cannot be read keeps none of the others from it.
fn answer_files(rt: &HostRuntime, names: &[String]) -> io::Result<Outcome> {
    let mut worst = Outcome::Reported;
    for name in names {
        worst = worst.max(answer_file(rt, name.as_str())?);
    }
    Ok(worst)
}

// Takes the first `--` out of the arguments. The answer is how many may be options: those behind it are names of files.
fn end_options(args: &mut Vec<String>) -> usize
    ensures { result ≤ length args.new.items }
{
    match args.iter().position(|arg| arg.as_str() == "--") {
        Some(end) => {
            let _ = args.remove(end);
            end
        }
        None => args.len(),
    }
}

fn run(rt: &HostRuntime) -> anyhow::Result<Outcome> {
    let args = env::args(rt).context("arguments")?;
    let mut args: Vec<String> = args.skip(1).collect(rt.alloc())?;
    let end = end_options(&mut args);
    let options = &args[..end];
    if options.iter().any(|arg| arg.as_str() == "--help") {
        rt.print(HELP).context("standard output")?;
        return Ok(Outcome::Reported);
    }
    if let Some(unknown) = options.iter().find(|arg| arg.starts_with('-')) {
        return Err(anyhow!("unknown argument {unknown}; plan --help says what there is"));
    }
    if args.is_empty() {
        let file = read_plan(rt, rt.stdin()).context("standard input")?;
        return print_answer(rt, &file).context("standard output");
    }
    answer_files(rt, &args).context("standard output")
}

fn main(rt: HostRuntime) -> ExitCode {
    let outcome = run(&rt).unwrap_or_else(|error| complain(&rt, &error));
    ExitCode::from(outcome as u8)
}
