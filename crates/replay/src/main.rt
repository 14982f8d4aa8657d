//! Prints what the calls of logs are answered, from the files named as arguments or from standard input. [`replay`] of `call_log`
//! answers a log; this program opens the files, says what went wrong, and ends with a status. Begin with `run`.
#![tactic(auto)]

ghost use Rattle.std.specs.Prelude.{◌≤◌, length};

mod help;
#[cfg(test)]
mod tests;

use anyhow::{Context, anyhow};
use call_log::replay;
use help::HELP;
use std::env;
use std::fs::File;
use std::io::{self, BufReader, Read, Write};
use std::process::ExitCode;

// How it went with some logs, the better first. The number is the exit status.
#[derive(Clone, Copy, PartialEq, Eq, PartialOrd, Ord)]
enum Outcome {
    // every line was well formed
    WellFormed = 0,
    // some line was not
    Malformed = 1,
    // reading or writing failed
    Failed = 2,
}

// Where answers are written, and whether the last write failed. Then no other log can be answered either.
#[derive(Drop)]
struct Output<W> {
    to: W,
    failed: bool,
}

impl<W> Output<W> {
    fn new(to: W) -> Output<W> {
        Output { to, failed: false }
    }
}

impl<W: Write> Write for Output<W> {
    fn write(&mut self, buf: &[u8]) -> io::Result<usize> {
        let written = self.to.write(buf);
        self.failed = !matches!(written, Ok(count) if 0 < count);
        written
    }

    fn flush(&mut self) -> io::Result<()> {
        self.to.flush()
    }
}

// Writes the answers to the log that a reader gives. They are not kept back, since who writes the log may wait for them.
fn answer_log<R: Read + Drop, W: Write>(
    rt: &HostRuntime,
    log: R,
    out: &mut Output<W>,
) -> io::Result<Outcome> {
    let heap = rt.alloc();
    let log = BufReader::new(heap, log)?;
    if replay(heap, log, out)? {
        Ok(Outcome::WellFormed)
    } else {
        Ok(Outcome::Malformed)
    }
}

// Says what an error is about: the log of this name, or what is written, which is not about the log.
fn name_error<W>(
    answered: io::Result<Outcome>,
    name: &str,
    out: &Output<W>,
) -> anyhow::Result<Outcome> {
    let about = if out.failed {
        "the answers cannot be written"
    } else {
        name
    };
    answered.context(format_args!("{about}"))
}

// Writes the answers to a file.
fn answer_file<W: Write>(
    rt: &HostRuntime,
    name: &str,
    out: &mut Output<W>,
) -> anyhow::Result<Outcome> {
    let answered = File::open(rt, name).and_then(|file| answer_log(rt, file, out));
    name_error(answered, name, out)
}

// Says on standard error what went wrong. If that fails too, the exit status still says it.
fn complain(rt: &HostRuntime, error: &anyhow::Error) -> Outcome {
    let _ = eprintln!(rt; "replay: {error:#}");
    Outcome::Failed
}

// Writes the answers to each file in turn. One that cannot be read keeps none of the others from it; a write that fails ends it.
fn answer_files<W: Write>(
    rt: &HostRuntime,
    names: &[String],
    out: &mut Output<W>,
) -> anyhow::Result<Outcome> {
    let mut worst = Outcome::WellFormed;
    for name in names {
        let outcome = match answer_file(rt, name.as_str(), out) {
            Ok(outcome) => outcome,
            Err(error) if out.failed => return Err(error),
            Err(error) => complain(rt, &error),
        };
        worst = worst.max(outcome);
    }
    Ok(worst)
}

// Takes the first `--` out of the arguments. The answer is how many may be options: those behind it are names of files.
fn end_options(args: &mut Vec<String>) -> usize
    ensures { result ≤ length args.new.items }
{
    match args.iter().position(|arg| arg.as_str() == "--") {
        Some(end) => {
            let _ = args.remove(end);
            end
        }
        None => args.len(),
    }
}

fn run(rt: &HostRuntime) -> anyhow::Result<Outcome> {
    let args = env::args(rt).context("arguments")?;
    let mut args: Vec<String> = args.skip(1).collect(rt.alloc())?;
    let end = end_options(&mut args);
    let options = &args[..end];
    if options.iter().any(|arg| arg.as_str() == "--help") {
        rt.print(HELP).context("standard output")?;
        return Ok(Outcome::WellFormed);
    }
    if let Some(unknown) = options.iter().find(|arg| arg.starts_with('-')) {
        return Err(anyhow!("unknown argument {unknown}; replay --help says what there is"));
    }
    let mut out = Output::new(io::writer(rt));
    if args.is_empty() {
        let answered = answer_log(rt, rt.stdin(), &mut out);
        return name_error(answered, "standard input", &out);
    }
    answer_files(rt, &args, &mut out)
}

fn main(rt: HostRuntime) -> ExitCode {
    let outcome = run(&rt).unwrap_or_else(|error| complain(&rt, &error));
    ExitCode::from(outcome as u8)
}
