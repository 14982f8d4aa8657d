//! Logs at their limits and bad ones, a worked example of each public call for logs, run on the code, and a write that fails.
use super::{Output, answer_files};
use analysis::Answer;
use call_log::replay;
use demand::Factor;
use planfile::{
    LONGEST_LINE, LineFault, Opening, Request, Response, read_clock_line, read_opening,
    read_request,
};
use runs::{Call, HoldId, NotHeld, Reply};
use std::alloc::{AllocError, Global};
use std::fs;
use std::io::{self, Read, Write};
use std::process::Abort;
use std::test::Fail;
use table::HoldRefusal;

// The start of an evening at table 1 with twelve places.
const EVENING: &[u8] = b"table\t1\t12\nclock\t1\t1\n";

// A row that nothing speaks against, as the fields of a hold line or a row line behind the first word.
const ROW: &[u8] = b"\t7\t20\t0\t0\t15\t0\t0\t0\t0\t0\t0\t0\t0\t0\tevery\t3\t16\n";

// Wants that this is written for a log of two parts, and whether all of its lines are well formed.
fn expect(
    rt: &(impl Abort + AllocGlobal),
    start: &[u8],
    rest: &[u8],
    said: &[u8],
    well_formed: bool,
) -> Result<(), Fail> {
    let heap = rt.alloc();
    let mut log = Vec::new(heap);
    log.extend_from_slice(start)?;
    log.extend_from_slice(rest)?;
    let mut out = Vec::new(heap);
    let answer = replay(heap, log.as_slice(), &mut out)?;
    assert_eq!(rt; out.as_slice(), said);
    assert_eq!(rt; answer, well_formed);
    Ok(())
}

#[test]
fn empty_log(rt: HostRuntime) -> Result<(), Fail> {
    expect(&rt, b"", b"", b"refused\t0\t0\t18\t0\n", false)
}

// A log of one line lacks the clock line of its table; one that is no table line, or has no newline, is refused for that.
#[test]
fn one_line(rt: HostRuntime) -> Result<(), Fail> {
    expect(
        &rt,
        b"table\t1\t12\n",
        b"",
        b"refused\t0\t0\t18\t0\n",
        false,
    )?;
    expect(&rt, b"clock\t1\t1\n", b"", b"refused\t1\t1\t17\t0\n", false)?;
    expect(&rt, b"table\t1\t12", b"", b"refused\t1\t0\t18\t0\n", false)?;
    expect(&rt, b"\n", b"", b"refused\t1\t1\t17\t0\n", false)
}

// A carriage return belongs to the field that it ends.
#[test]
fn carriage_returns(rt: HostRuntime) -> Result<(), Fail> {
    expect(
        &rt,
        b"table\t1\t12\r\n",
        EVENING,
        b"refused\t1\t3\t16\t0\n",
        false,
    )?;
    let said = b"refused\t3\t1\t17\t0\nrefused\t4\t2\t16\t0\n";
    expect(&rt, EVENING, b"rows\r\nbound\t7\r\n", said, false)
}

#[test]
fn nul_bytes(rt: HostRuntime) -> Result<(), Fail> {
    expect(&rt, b"\0\0\0", b"", b"refused\t1\t0\t18\t0\n", false)?;
    let said = b"refused\t3\t1\t17\t0\nrefused\t4\t2\t16\t0\nrefused\t5\t1\t17\t0\n";
    expect(&rt, EVENING, b"rows\0\nkeep\t\0\n\0\n", said, false)
}

// A line of these many bytes with its newline: a word and a number that is 0. Behind it stands another line.
fn long_line(heap: Global, word: &[u8], length: usize) -> Result<Vec<u8>, AllocError> {
    let mut text = Vec::new(heap);
    text.extend_from_slice(word)?;
    for _ in word.len()..length.saturating_sub(1) {
        text.push(b'0')?;
    }
    text.extend_from_slice(b"\nbound\t7\n")?;
    Ok(text)
}

// With 4,096 bytes a line is read, with one more it is not. The evening goes on.
#[test]
fn longest_line(rt: HostRuntime) -> Result<(), Fail> {
    let heap = rt.alloc();
    assert_eq!(rt; LONGEST_LINE, 4096);
    let read = b"refused\t3\t0\t13\t0\nrefused\t4\t0\t13\t0\n";
    let line = long_line(heap, b"bound\t", 4096)?;
    expect(&rt, EVENING, &line, read, true)?;
    let refused = b"refused\t3\t0\t18\t0\nrefused\t4\t0\t13\t0\n";
    let line = long_line(heap, b"bound\t", 4097)?;
    expect(&rt, EVENING, &line, refused, false)?;
    // and so it does where the line begins as a table line
    let line = long_line(heap, b"table\t1\t", 4097)?;
    expect(&rt, EVENING, &line, refused, false)?;
    expect(&rt, &line, EVENING, b"refused\t1\t0\t18\t0\n", false)
}

#[test]
fn numbers_at_their_limits(rt: HostRuntime) -> Result<(), Fail> {
    expect(
        &rt,
        EVENING,
        b"bound\t4294967295\n",
        b"refused\t3\t0\t13\t0\n",
        true,
    )?;
    expect(
        &rt,
        EVENING,
        b"bound\t4294967296\n",
        b"refused\t3\t2\t16\t0\n",
        false,
    )?;
    expect(
        &rt,
        EVENING,
        b"keep\t18446744073709551617\n",
        b"refused\t3\t2\t16\t0\n",
        false,
    )?;
    expect(
        &rt,
        b"table\t255\t0\nclock\t1\t1\nhold",
        ROW,
        b"refused\t3\t0\t10\t0\n",
        true,
    )?;
    expect(
        &rt,
        b"table\t256\t12\n",
        EVENING,
        b"refused\t1\t2\t16\t0\n",
        false,
    )?;
    expect(
        &rt,
        b"table\t0\t13\n",
        EVENING,
        b"refused\t1\t3\t16\t0\n",
        false,
    )?;
    expect(
        &rt,
        EVENING,
        b"table\t256\tx\nrows\n",
        b"refused\t3\t2\t16\t0\n",
        false,
    )
}

// A log of many lines, which is in no memory: its start, and then the same three calls again and again.
#[derive(Drop)]
struct Many<'a> {
    text: &'a [u8],
    again: &'a [u8],
    turns: u32,
}

impl Read for Many<'_> {
    fn read(&mut self, buf: &mut [u8]) -> io::Result<usize> {
        if self.text.is_empty() && 0 < self.turns {
            self.text = self.again;
            self.turns -= 1;
        }
        self.text.read(buf)
    }
}

// Counts the lines that are written, and lets them go.
#[derive(Drop)]
struct Lines(u64);

impl Write for Lines {
    fn write(&mut self, buf: &[u8]) -> io::Result<usize> {
        let lines = buf.iter().filter(|byte| **byte == b'\n').count();
        self.0 = self.0.saturating_add(lines as u64);
        Ok(buf.len())
    }

    fn flush(&mut self) -> io::Result<()> {
        Ok(())
    }
}

// Takes no byte, and counts the writes that were tried.
#[derive(Drop)]
struct Full(u32);

impl Write for Full {
    fn write(&mut self, _buf: &[u8]) -> io::Result<usize> {
        self.0 = self.0.saturating_add(1);
        Err(io::ErrorKind::StorageFull.into())
    }

    fn flush(&mut self) -> io::Result<()> {
        Ok(())
    }
}

// A write that fails is no fault of the file, and none is tried for the next one. Each of these files is an empty log.
#[test]
fn write_that_fails(rt: HostRuntime) -> Result<(), Fail> {
    let heap = rt.alloc();
    let mut names = Vec::new(heap);
    for _ in 0..2 {
        names.push(format!(in heap; "/dev/null")?)?;
    }
    let mut out = Output::new(Full(0));
    let error = answer_files(&rt, &names, &mut out).err();
    let text = format!(in heap; "{error:?}")?;
    assert_eq!(rt;
        (text.contains("written"), text.contains("/dev/null")),
        (true, false)
    );
    assert_eq!(rt; out.to.0, 1);
    Ok(())
}

// How many pages of memory the process has. It is the second number of this file.
fn pages(rt: &HostRuntime) -> Result<u64, Fail> {
    let text = fs::read_to_string(rt, "/proc/self/statm")?;
    let pages = text.as_str().split(' ').nth(1);
    Ok(
        pages
            .and_then(|pages| pages.parse::<u64>().ok())
            .unwrap_or(0),
    )
}

// 100,000 lines need no more memory than some.
#[test]
fn many_lines(rt: HostRuntime) -> Result<(), Fail> {
    let mut again = Vec::new(rt.alloc());
    for part in [b"hold", ROW, b"keep\t7\nwithdraw\t7\n"] {
        again.extend_from_slice(part)?;
    }
    let log = Many {
        text: EVENING,
        again: again.as_slice(),
        turns: 33_333,
    };
    let before = pages(&rt)?;
    let mut lines = Lines(0);
    let well_formed = replay(rt.alloc(), log, &mut lines)?;
    let after = pages(&rt)?;
    assert_eq!(rt; (lines.0, well_formed), (99_999, true));
    assert_eq!(rt;
        (0 < before, after.saturating_sub(before) < 64),
        (true, true)
    );
    Ok(())
}

// What lines ask.
#[test]
fn read_lines(rt: HostRuntime) -> Result<(), Fail> {
    let clock = Factor {
        numerator: 3,
        denominator: 2,
    };
    let opening = Opening {
        number: 255,
        places: 12,
    };
    assert_eq!(rt; read_opening(b"table\t255\t12\n"), Ok(opening));
    assert_eq!(rt; read_opening(b"rows\n"), Err(LineFault::Word(1)));
    // what follows the newline is not looked at
    assert_eq!(rt; read_opening(b"table\t255\t12\nrows\n"), Ok(opening));
    let read = read_clock_line(b"clock\t3\t2\n").map(|clock| (clock.numerator, clock.denominator));
    assert_eq!(rt; read, Ok((3, 2)));
    let fault = read_clock_line(b"clock\t2\t3\n").err();
    assert_eq!(rt; fault.map(|fault| fault.blame().number), Some(4));
    let id = HoldId { table: 255, row: 7 };
    let kept = read_request(b"keep\t7\n", clock, 255);
    assert_eq!(rt;
        matches!(kept, Ok(Request::Call(Call::Keep(named))) if named == id),
        true
    );
    assert_eq!(rt;
        matches!(read_request(b"rows\n", clock, 255), Ok(Request::Rows)),
        true
    );
    assert_eq!(rt;
        matches!(read_request(b"table\n", clock, 255), Ok(Request::Table)),
        true
    );
    assert_eq!(rt;
        matches!(read_request(b"rows", clock, 255), Err(LineFault::Length)),
        true
    );
    Ok(())
}

// What replies come to, and the texts of some.
#[test]
fn responses(rt: HostRuntime) -> Result<(), Fail> {
    let heap = rt.alloc();
    let refused = Response::Refused {
        line: 9,
        field: 0,
        number: 11,
        late: 3,
    };
    assert_eq!(rt; Response::of(9, 7, Reply::Keep(Ok(()))), Response::Kept(7));
    assert_eq!(rt;
        Response::of(9, 7, Reply::Hold(Err(HoldRefusal::Late(3)))),
        refused
    );
    assert_eq!(rt;
        Response::of(9, 7, Reply::Bound(Ok((14, 2)))),
        Response::Bounded {
            row: 7,
            bound: 14,
            vector: 2,
        }
    );
    assert_eq!(rt;
        Response::of(9, 7, Reply::Release(Err(NotHeld))),
        Response::Refused {
            line: 9,
            field: 0,
            number: 12,
            late: 0,
        }
    );
    let answer = Answer {
        number: 3,
        bound: 14,
        vector: 2,
        blocking: 0,
    };
    assert_eq!(rt;
        Response::refusal(4, LineFault::Word(1))
            .to_string(heap)?
            .as_str(),
        "refused\t4\t1\t17\t0\n"
    );
    let row = Response::Row { answer, held: true };
    let held = format!(in heap; "{refused}{row}")?;
    assert_eq!(rt;
        held.as_str(),
        "refused\t9\t0\t11\t3\nrow\t3\t14\t2\t0\theld\n"
    );
    Ok(())
}
