//! A log, read line by line.
ghost use Rattle.std.specs.Prelude.{◌≡◌, ◌+◌, ◌^◌, ◌<◌, ◌≤◌, min, true, [], ◌∷◌, ◌++◌, length, IfOk, IfSome, MatchBool, OnOk};
ghost use Rattle.planfile.specs.declared.TheConstants.{LONGEST_LINE};
ghost use Rattle.call_log.specs.Counting.{kept_of, to_come};

use planfile::LONGEST_LINE;
use std::alloc::Global;
use std::io::{self, Bytes, Read};

// A log while it is read. It is in memory for one line at a time.
#[derive(Drop)]
pub(crate) struct Log<R: Read> {
    // what is left of it
    bytes: Bytes<R>,
    // whether its end was seen
    ended: bool,
    // the line at hand with its newline; of one that is too long, one byte more than a line may have is kept
    pub(crate) line: Vec<u8>,
    // how many lines were read
    pub(crate) number: u64,
    // whether all lines so far were well formed
    pub(crate) well_formed: bool,
    ghost counted: { number + to_come ended bytes < 2 ^ 64 },
}

impl<R: Read + Drop> Log<R> {
    ghost use Rattle.call_log.specs.Reading.{bytes_left_of, left_of, ReadsByte, ReadsLine, TakesLine, SameSoFar};

    pub(crate) fn new(heap: Global, log: R) -> Log<R>
        ensures left { left_of result ≡ R.remaining log }
        ensures number { result.number ≡ 0 }
        ensures well_formed { result.well_formed ≡ true }
    {
        Log {
            bytes: log.bytes(),
            ended: false,
            line: Vec::new(heap),
            number: 0,
            well_formed: true,
        }
    }

    // The next byte, if there is one.
    fn next_byte(&mut self) -> io::Result<Option<u8>>
        ensures byte { IfOk result (λ byte. ReadsByte self.old byte self.new) }
        ensures fewer { IfOk result (λ byte. IfSome byte (λ _.
            bytes_left_of self.new < bytes_left_of self.old)) }
        ensures no_more { bytes_left_of self.new ≤ bytes_left_of self.old }
        ensures same { SameSoFar self.old self.new }
        ensures line { self.new.line ≡ self.old.line }
    {
        if self.ended {
            return Ok(None);
        }
        let byte = self.bytes.next().transpose()?;
        self.ended = byte.is_none();
        Ok(byte)
    }

    // Takes bytes up to a newline or the end.
    fn take_line(&mut self) -> io::Result<()>
        requires { self.old.line.items ≡ [] }
        ensures line { OnOk result (TakesLine self.old self.new) }
        ensures fewer { OnOk result (min 1 (length self.new.line.items) + bytes_left_of self.new
            ≤ bytes_left_of self.old) }
        ensures same { SameSoFar self.old self.new }
    {
        while let Some(byte) = self.next_byte()? {
            push_byte(&mut self.line, byte)?;
            if byte == b'\n' {
                return Ok(());
            }
        }
        Ok(())
    }

    // Reads the next line, if there is one.
    pub(crate) fn read_line(&mut self) -> io::Result<bool>
        ensures line { IfOk result (λ more. ReadsLine self.old more self.new) }
        ensures fewer { IfOk result (λ more. MatchBool more
            (bytes_left_of self.new < bytes_left_of self.old)
            (bytes_left_of self.new ≤ bytes_left_of self.old)) }
        ensures number { IfOk result (λ more. MatchBool more
            (self.new.number ≡ self.old.number + 1)
            (self.new.number ≡ self.old.number)) }
        ensures well_formed { self.new.well_formed ≡ self.old.well_formed }
    {
        self.line.clear();
        self.take_line()?;
        if self.line.is_empty() {
            return Ok(false);
        }
        self.number += 1;
        Ok(true)
    }
}

// Puts a byte behind those of a line, of which one more is kept than it may have.
fn push_byte(line: &mut Vec<u8>, byte: u8) -> io::Result<()>
    requires { length line.old.items ≤ LONGEST_LINE + 1 }
    ensures { OnOk result (line.new.items ≡ kept_of (line.old.items ++ byte ∷ [])) }
{
    if line.len() <= LONGEST_LINE {
        line.push(byte)?;
    }
    Ok(())
}
