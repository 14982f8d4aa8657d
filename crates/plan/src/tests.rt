//! Bad input, input at its limits, and a worked example of each public call of `planfile`, run on the code.
use demand::KindRefusal;
use planfile::{
    Blame, Fault, FieldFault, LONGEST_FILE, LineFault, REPORT_MEMORY, answer, load, read_number,
    worked_figures_hold, write_refusal,
};
use std::alloc::{AllocError, Global};
use std::process::Abort;
use std::test::Fail;
use table::HoldRefusal;

// The start of a file whose next line is a row line.
const CLOCK: &[u8] = b"clock\t1\t1\n";

// A row line up to its kind. Nothing speaks against it.
const ROW: &[u8] = b"row\t1\t1\t0\t0\t10\t0\t0\t0\t0\t0\t0\t0\t0\t0";

const GARAGE: &[u8] = b"\
clock\t1\t1\n\
row\t1\t30\t3\t1\t10\t0\t1\t0\t0\t0\t0\t0\t0\t0\tevery\t2\t10\n\
row\t2\t20\t0\t0\t15\t0\t0\t0\t0\t0\t0\t0\t0\t0\tevery\t3\t16\n\
row\t3\t10\t0\t0\t40\t0\t2\t0\t0\t0\t0\t0\t0\t0\tevery\t5\t40\n";

const GARAGE_REPORT: &[u8] = b"row\t1\t9\t0\t4\nrow\t2\t9\t0\t2\nrow\t3\t14\t2\t0\n";

// What a fault answers to the four calls that ask for one number each.
fn blame(fault: Fault) -> Blame {
    Blame {
        number: fault.number(),
        line: fault.line(),
        field: fault.field(),
        late: fault.late(),
    }
}

// A fault of the file as a whole.
fn file(number: u32) -> Blame {
    line(number, 0)
}

// A fault of a line as a whole.
fn line(number: u32, line: u32) -> Blame {
    field(number, line, 0)
}

// A fault of a field of a line.
fn field(number: u32, line: u32, field: u32) -> Blame {
    Blame {
        number,
        line,
        field,
        late: 0,
    }
}

// A fault of a line with which a row is late.
fn late(number: u32, line: u32, late: u32) -> Blame {
    Blame {
        number,
        line,
        field: 0,
        late,
    }
}

// A call's answer: the length of what was written, or what is blamed.
fn said(answer: Result<usize, Fault>) -> Result<usize, Blame> {
    answer.map_err(blame)
}

// What a file is refused for, if it is refused.
fn refused_for(file: &[u8]) -> Option<Blame> {
    let mut text = [0; REPORT_MEMORY];
    said(load(file, &mut text)).err()
}

// What a file is refused for that has a clock line and then these lines.
fn rows_refused_for(heap: Global, lines: &[u8]) -> Result<Option<Blame>, AllocError> {
    let file = [CLOCK, lines].concat(heap)?;
    Ok(refused_for(file.as_slice()))
}

// What a file is refused for that has one row line: a row and its kind.
fn kind_refused_for(heap: Global, kind: &[u8]) -> Result<Option<Blame>, AllocError> {
    let line = [ROW, kind].concat(heap)?;
    rows_refused_for(heap, line.as_slice())
}

// A clock line with so many zeros before the first of its numbers.
fn padded(heap: Global, zeros: usize) -> Result<Vec<u8>, AllocError> {
    let zeros = b"0".repeat(heap, zeros)?;
    [b"clock\t".as_slice(), zeros.as_slice(), b"1\t1\n"].concat(heap)
}

// A row line of at least sixteen fields. All behind the word are 10.
fn line_of(heap: Global, word: &[u8], fields: usize) -> Result<Vec<u8>, AllocError> {
    let behind = b"\t10".repeat(heap, fields.saturating_sub(16))?;
    [ROW, b"\t", word, behind.as_slice(), b"\n"].concat(heap)
}

// A file of so many rows. Number and priority of the first are 10, and so on.
fn many_rows(heap: Global, rows: usize) -> Result<Vec<u8>, AllocError> {
    let mut text = String::from_str(heap, "clock\t1\t1\n")?;
    for n in (10u32..).take(rows) {
        write!(
            text,
            "row\t{n}\t{n}\t0\t0\t900\t0\t0\t0\t0\t0\t0\t0\t0\t0\tevery\t1\t1000\n"
        )?;
    }
    Ok(text.into_bytes())
}

// All bytes are the mark that stood there before.
fn check_untouched(rt: &impl Abort, bytes: &[u8]) {
    assert!(rt; bytes.iter().all(|byte| *byte == b'#'));
}

#[test]
fn a_file_without_lines(rt: HostRuntime) {
    assert_eq!(rt; refused_for(b""), Some(file(18)));
    assert_eq!(rt; refused_for(b"\n"), Some(field(17, 1, 1)));
    assert_eq!(rt; refused_for(b"\t\t\n"), Some(field(17, 1, 1)));
}

#[test]
fn a_newline_ends_the_file(rt: HostRuntime) {
    assert_eq!(rt; refused_for(b"clock\t1\t1"), Some(file(18)));
    assert_eq!(rt; refused_for(b"clock\t1\t1\n\0"), Some(file(18)));
    assert_eq!(rt; refused_for(b"clock\t1\t1\n"), None);
    assert_eq!(rt; refused_for(b"clock\t1\t1\n\n"), Some(field(17, 2, 1)));
}

#[test]
fn at_most_4096_bytes(rt: HostRuntime) -> Result<(), Fail> {
    let longest = padded(rt.alloc(), 4086)?;
    assert_eq!(rt; longest.len(), LONGEST_FILE);
    assert_eq!(rt; refused_for(longest.as_slice()), None);
    let longer = padded(rt.alloc(), 4087)?;
    assert_eq!(rt; refused_for(longer.as_slice()), Some(file(18)));
    Ok(())
}

#[test]
fn foreign_bytes(rt: HostRuntime) {
    assert_eq!(rt; refused_for(b"clock\0\t1\t1\n"), Some(field(17, 1, 1)));
    assert_eq!(rt; refused_for(b"clock\t1\t1\0\n"), Some(field(16, 1, 3)));
    assert_eq!(rt;
        refused_for(b"\xef\xbb\xbfclock\t1\t1\n"),
        Some(field(17, 1, 1))
    );
    assert_eq!(rt; refused_for(b"clock\t\xd9\xa1\t1\n"), Some(field(16, 1, 2)));
    assert_eq!(rt; refused_for(b"clock\t1\t\xff\n"), Some(field(16, 1, 3)));
    assert_eq!(rt; refused_for(b"clock\t1\t1\r\n"), Some(field(16, 1, 3)));
    assert_eq!(rt; refused_for(b"clock\t1\t1\r"), Some(file(18)));
}

#[test]
fn empty_fields(rt: HostRuntime) {
    assert_eq!(rt; refused_for(b"\t1\t1\n"), Some(field(17, 1, 1)));
    assert_eq!(rt; refused_for(b"clock\t\t1\n"), Some(field(16, 1, 2)));
    assert_eq!(rt; refused_for(b"clock\t1\t\n"), Some(field(16, 1, 3)));
    assert_eq!(rt; refused_for(b"clock\t1\t1\t\n"), Some(line(15, 1)));
    assert_eq!(rt; refused_for(b"clock\t1\t\t1\n"), Some(line(15, 1)));
}

#[test]
fn digits_alone_are_a_number(rt: HostRuntime) {
    assert_eq!(rt; refused_for(b"clock\t+1\t1\n"), Some(field(16, 1, 2)));
    assert_eq!(rt; refused_for(b"clock\t-1\t1\n"), Some(field(16, 1, 2)));
    assert_eq!(rt; refused_for(b"clock\t1\t 1\n"), Some(field(16, 1, 3)));
    assert_eq!(rt; refused_for(b"clock\t1 \t1\n"), Some(field(16, 1, 2)));
    assert_eq!(rt; refused_for(b"clock\t0x1\t1\n"), Some(field(16, 1, 2)));
    assert_eq!(rt; refused_for(b"clock\t/\t:\n"), Some(field(16, 1, 2)));
}

#[test]
fn zeros_before_a_digit(rt: HostRuntime) -> Result<(), Fail> {
    let file = padded(rt.alloc(), 4000)?;
    assert_eq!(rt; refused_for(file.as_slice()), None);
    Ok(())
}

#[test]
fn numbers_up_to_4294967295(rt: HostRuntime) {
    assert_eq!(rt; refused_for(b"clock\t4294967295\t1\n"), Some(line(4, 1)));
    assert_eq!(rt;
        refused_for(b"clock\t4294967296\t1\n"),
        Some(field(16, 1, 2))
    );
    assert_eq!(rt;
        refused_for(b"clock\t1\t4294967297\n"),
        Some(field(16, 1, 3))
    );
    assert_eq!(rt;
        refused_for(b"clock\t18446744073709551617\t1\n"),
        Some(field(16, 1, 2))
    );
}

#[test]
fn factors_of_a_clock(rt: HostRuntime) {
    assert_eq!(rt; refused_for(b"clock\t1\t2\n"), Some(line(4, 1)));
    assert_eq!(rt; refused_for(b"clock\t0\t0\n"), Some(line(4, 1)));
    assert_eq!(rt; refused_for(b"clock\t1\t0\n"), Some(line(4, 1)));
    assert_eq!(rt; refused_for(b"clock\t1000\t1\n"), None);
    assert_eq!(rt; refused_for(b"clock\t1000\t1000\n"), None);
    assert_eq!(rt; refused_for(b"clock\t1001\t1\n"), Some(line(4, 1)));
}

#[test]
fn order_on_a_clock_line(rt: HostRuntime) {
    assert_eq!(rt; refused_for(b"Clock\tx\n"), Some(field(17, 1, 1)));
    assert_eq!(rt; refused_for(b"clock\tx\n"), Some(line(15, 1)));
    assert_eq!(rt; refused_for(b"clock\tx\ty\n"), Some(field(16, 1, 2)));
    assert_eq!(rt; refused_for(b"clock\t1\ty\n"), Some(field(16, 1, 3)));
}

#[test]
fn words(rt: HostRuntime) -> Result<(), Fail> {
    let heap = rt.alloc();
    assert_eq!(rt; rows_refused_for(heap, b"Row\n")?, Some(field(17, 2, 1)));
    assert_eq!(rt; rows_refused_for(heap, b"rows\n")?, Some(field(17, 2, 1)));
    assert_eq!(rt; rows_refused_for(heap, b" row\n")?, Some(field(17, 2, 1)));
    assert_eq!(rt; rows_refused_for(heap, b"row\n")?, Some(line(15, 2)));
    assert_eq!(rt; rows_refused_for(heap, CLOCK)?, Some(field(17, 2, 1)));
    assert_eq!(rt;
        kind_refused_for(heap, b"\tevery\t1\t10\nclock\t1\t1\n")?,
        Some(field(17, 3, 1))
    );
    assert_eq!(rt;
        kind_refused_for(heap, b"\tEvery\t1\t10\n")?,
        Some(field(17, 2, 16))
    );
    assert_eq!(rt;
        kind_refused_for(heap, b"\tevery \t1\t10\n")?,
        Some(field(17, 2, 16))
    );
    assert_eq!(rt;
        kind_refused_for(heap, b"\trow\t1\t10\n")?,
        Some(field(17, 2, 16))
    );
    assert_eq!(rt;
        kind_refused_for(heap, b"\t\t1\t10\n")?,
        Some(field(17, 2, 16))
    );
    Ok(())
}

#[test]
fn fields_of_a_row_line(rt: HostRuntime) -> Result<(), Fail> {
    let heap = rt.alloc();
    assert_eq!(rt; kind_refused_for(heap, b"\n")?, Some(line(15, 2)));
    for fields in 16..22 {
        for (word, due) in [(b"every", 18), (b"heavy", 20)] {
            let row = line_of(heap, word, fields)?;
            assert_eq!(rt;
                rows_refused_for(heap, row.as_slice())?,
                (fields != due).then_some(line(15, 2))
            );
        }
        let neither = line_of(heap, b"seldom", fields)?;
        assert_eq!(rt;
            rows_refused_for(heap, neither.as_slice())?,
            Some(field(17, 2, 16))
        );
    }
    Ok(())
}

// From left to right, one number less is wrong in each line.
#[test]
fn the_leftmost_field(rt: HostRuntime) -> Result<(), Fail> {
    let heap = rt.alloc();
    let all = b"row\tx\t1\t0\t0\t10\t0\t0\t0\t0\t0\t0\t0\t0\tx\tevery\tx\tx\n";
    assert_eq!(rt; rows_refused_for(heap, all)?, Some(field(16, 2, 2)));
    let three = b"row\t0\t1\t0\t0\t10\t0\t0\t0\t0\t0\t0\t0\t0\tx\tevery\tx\tx\n";
    assert_eq!(rt; rows_refused_for(heap, three)?, Some(field(16, 2, 15)));
    assert_eq!(rt;
        kind_refused_for(heap, b"\tevery\tx\tx\n")?,
        Some(field(16, 2, 17))
    );
    assert_eq!(rt;
        kind_refused_for(heap, b"\tevery\t0\tx\n")?,
        Some(field(16, 2, 18))
    );
    assert_eq!(rt;
        kind_refused_for(heap, b"\theavy\t0\t0\t0\tx\n")?,
        Some(field(16, 2, 20))
    );
    Ok(())
}

// From the first check of the numbers to the last: in each line all later checks apply too.
#[test]
fn order_of_the_numbers(rt: HostRuntime) -> Result<(), Fail> {
    let heap = rt.alloc();
    let first = b"row\t0\t0\t0\t1\t0\t9\t9\t0\t0\t0\t0\t0\t0\t0\tevery\t0\t0\n";
    assert_eq!(rt; rows_refused_for(heap, first)?, Some(line(1, 2)));
    let second = b"row\t0\t0\t0\t1\t0\t9\t9\t0\t0\t0\t0\t0\t0\t0\tevery\t8\t0\n";
    assert_eq!(rt; rows_refused_for(heap, second)?, Some(line(2, 2)));
    let third = b"row\t0\t0\t0\t1\t0\t9\t9\t0\t0\t0\t0\t0\t0\t0\tevery\t8\t9\n";
    assert_eq!(rt; rows_refused_for(heap, third)?, Some(line(3, 2)));
    let fifth = b"row\t0\t0\t0\t1\t0\t8\t9\t0\t0\t0\t0\t0\t0\t0\tevery\t8\t9\n";
    assert_eq!(rt; rows_refused_for(heap, fifth)?, Some(line(5, 2)));
    let sixth = b"row\t1\t0\t0\t1\t0\t8\t9\t0\t0\t0\t0\t0\t0\t0\tevery\t8\t9\n";
    assert_eq!(rt; rows_refused_for(heap, sixth)?, Some(line(6, 2)));
    let seventh = b"row\t1\t1\t0\t1\t0\t8\t9\t0\t0\t0\t0\t0\t0\t0\tevery\t8\t9\n";
    assert_eq!(rt; rows_refused_for(heap, seventh)?, Some(line(7, 2)));
    let eighth = b"row\t1\t1\t1\t1\t0\t8\t9\t0\t0\t0\t0\t0\t0\t0\tevery\t8\t9\n";
    assert_eq!(rt; rows_refused_for(heap, eighth)?, Some(line(8, 2)));
    let ninth = b"row\t1\t1\t1\t1\t1\t8\t9\t0\t0\t0\t0\t0\t0\t0\tevery\t8\t9\n";
    assert_eq!(rt; rows_refused_for(heap, ninth)?, Some(line(9, 2)));
    let eleventh = b"row\t1\t1\t1\t1\t1\t8\t8\t0\t0\t0\t0\t0\t0\t0\tevery\t8\t9\n";
    assert_eq!(rt; rows_refused_for(heap, eleventh)?, Some(late(11, 2, 1)));
    Ok(())
}

// A job of 3 takes 5 ticks then.
#[test]
fn a_section_as_long_as_the_slowed_job(rt: HostRuntime) {
    let five = b"clock\t3\t2\nrow\t1\t1\t0\t0\t10\t0\t0\t0\t0\t0\t0\t0\t0\t5\tevery\t3\t10\n";
    assert_eq!(rt; refused_for(five), None);
    let six = b"clock\t3\t2\nrow\t1\t1\t0\t0\t10\t0\t0\t0\t0\t0\t0\t0\t0\t6\tevery\t3\t10\n";
    assert_eq!(rt; refused_for(six), Some(line(9, 2)));
}

#[test]
fn a_deadline_of_the_period_less_the_delay(rt: HostRuntime) -> Result<(), Fail> {
    let heap = rt.alloc();
    let six = b"row\t1\t1\t0\t0\t6\t4\t0\t0\t0\t0\t0\t0\t0\t0\tevery\t3\t10\n";
    assert_eq!(rt; rows_refused_for(heap, six)?, None);
    let seven = b"row\t1\t1\t0\t0\t7\t4\t0\t0\t0\t0\t0\t0\t0\t0\tevery\t3\t10\n";
    assert_eq!(rt; rows_refused_for(heap, seven)?, Some(line(8, 2)));
    Ok(())
}

#[test]
fn at_most_twelve_rows(rt: HostRuntime) -> Result<(), Fail> {
    let twelve = many_rows(rt.alloc(), 12)?;
    assert_eq!(rt; refused_for(twelve.as_slice()), None);
    let thirteen = many_rows(rt.alloc(), 13)?;
    assert_eq!(rt; refused_for(thirteen.as_slice()), Some(line(10, 14)));
    Ok(())
}

#[test]
fn report_memory_of_511_bytes(rt: HostRuntime) {
    let mut text = [b'#'; 511];
    assert_eq!(rt; said(load(GARAGE, &mut text)), Err(file(19)));
    check_untouched(&rt, &text);
    // before a fault of the file
    assert_eq!(rt; said(load(b"", &mut text)), Err(file(19)));
}

#[test]
fn report_memory_of_512_bytes(rt: HostRuntime) {
    let mut text = [b'#'; 512];
    assert_eq!(rt; said(load(b"clock\t1\t2\n", &mut text)), Err(line(4, 1)));
    check_untouched(&rt, &text);
    let length = GARAGE_REPORT.len();
    assert_eq!(rt; said(load(GARAGE, &mut text)), Ok(length));
    assert_eq!(rt; text.get(0..length), Some(GARAGE_REPORT));
}

#[test]
fn report_memory_of_600_bytes(rt: HostRuntime) -> Result<(), Fail> {
    let mut text = [b'#'; 600];
    let length = GARAGE_REPORT.len();
    assert_eq!(rt; said(load(GARAGE, &mut text)), Ok(length));
    assert_eq!(rt; text.get(0..length), Some(GARAGE_REPORT));
    check_untouched(&rt, text.get(length..600).ok_or("too short")?);
    Ok(())
}

#[test]
fn refusal_memory(rt: HostRuntime) -> Result<(), Fail> {
    let mut short = [b'#'; 511];
    assert_eq!(rt; said(write_refusal(Fault::File, &mut short)), Err(file(19)));
    check_untouched(&rt, &short);
    let line = b"refused\t0\t0\t18\t0\n";
    let length = line.len();
    let mut text = [b'#'; 512];
    assert_eq!(rt; said(write_refusal(Fault::File, &mut text)), Ok(length));
    assert_eq!(rt; text.get(0..length), Some(line.as_slice()));
    check_untouched(&rt, text.get(length..512).ok_or("too short")?);
    Ok(())
}

// A report and a refusal line go by the same call.
#[test]
fn a_file_is_answered(rt: HostRuntime) -> Result<(), Fail> {
    let mut text = [b'#'; REPORT_MEMORY];
    let length = answer(GARAGE, &mut text)?;
    assert_eq!(rt; text.get(0..length), Some(GARAGE_REPORT));
    let length = answer(b"clock\t1\t2\n", &mut text)?;
    assert_eq!(rt;
        text.get(0..length),
        Some(b"refused\t1\t0\t4\t0\n".as_slice())
    );
    let mut short = [b'#'; 511];
    assert_eq!(rt; said(answer(GARAGE, &mut short)), Err(file(19)));
    Ok(())
}

#[test]
fn numbers_of_fields(rt: HostRuntime) {
    assert_eq!(rt; read_number(b"0"), Ok(0));
    assert_eq!(rt; read_number(b"0042"), Ok(42));
    assert_eq!(rt; read_number(b"4294967295"), Ok(u32::MAX));
    assert_eq!(rt; read_number(b"4294967296"), Err(FieldFault::NotNumber));
    assert_eq!(rt; read_number(b""), Err(FieldFault::NotNumber));
    assert_eq!(rt; FieldFault::NotNumber.number(), 16);
}

// What each fault says, at once and by one call for each number.
#[test]
fn faults(rt: HostRuntime) {
    let late_row = LineFault::from(HoldRefusal::Late(3));
    let no_job = LineFault::from(KindRefusal::Job);
    let cases = [
        (Fault::ReportMemory, file(19)),
        (Fault::File, file(18)),
        (Fault::Line(1, LineFault::Word(1)), field(17, 1, 1)),
        (Fault::Line(2, LineFault::Count), line(15, 2)),
        (Fault::Line(3, LineFault::Number(6)), field(16, 3, 6)),
        (Fault::Line(4, late_row), late(11, 4, 3)),
        (Fault::Line(5, no_job), line(1, 5)),
    ];
    for (fault, says) in cases {
        assert_eq!(rt; fault.blame(), says);
        assert_eq!(rt; blame(fault), says);
    }
}

// What each fault says in words.
#[test]
fn faults_in_words(rt: HostRuntime) -> Result<(), Fail> {
    let heap = rt.alloc();
    let texts = [
        (
            LineFault::Word(1),
            "line 4: check 17: field 1 is not a word that is due there",
        ),
        (
            LineFault::Length,
            "line 4: check 18: the line has more than 4096 bytes, or no newline at its end",
        ),
        (
            LineFault::Count,
            "line 4: check 15: there are too few fields, or too many",
        ),
        (
            LineFault::Number(6),
            "line 4: check 16: field 6 is not a number that can stand there",
        ),
        (
            LineFault::from(KindRefusal::Delay),
            "line 4: check 3: the delay is not below the spacing",
        ),
        (
            LineFault::from(HoldRefusal::Late(3)),
            "line 4: check 11: row 3 would be late",
        ),
    ];
    for (fault, text) in texts {
        let told = Fault::Line(4, fault).to_string(heap)?;
        assert_eq!(rt; told.as_str(), text);
    }
    let memory = Fault::ReportMemory.to_string(heap)?;
    let file = Fault::File.to_string(heap)?;
    let field = FieldFault::NotNumber.to_string(heap)?;
    assert_eq!(rt;
        [memory.as_str(), file.as_str(), field.as_str()],
        [
            "check 19: the memory for the report has fewer than 512 bytes",
            "check 18: the file has more than 4096 bytes, or no newline at its end",
            "check 16: the field is not a number up to 4294967295",
        ]
    );
    Ok(())
}

// The answer is `true` always; what is proved is the contract.
#[test]
fn worked_figures(rt: HostRuntime) {
    assert!(rt; worked_figures_hold());
}
