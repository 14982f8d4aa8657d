//! What `plan --help` prints.
pub(crate) const HELP: &str = "\
plan: reads plan files, and prints the report of each, or its refusal

    plan [FILE ..]

The answer to each file stands behind a line with the file's name. With no file one is read from standard
input, and its answer stands alone.

A plan file says how fast a cabinet's clock is and which tasks it has, a row for each. The report has
upper bounds for the response times of all rows. A file is refused where it is not well formed, where a
number is out of range, and where some row would be late. Times are in ticks of 100 microseconds.

A file has at most 4,096 bytes. A newline ends each line, and one tab parts two fields. Numbers are
digits in base ten, up to 4,294,967,295, and leading zeros are fine. The first line is the clock line. The
rows follow, twelve at most:

    clock a b
    row number priority S X D J L0 L1 L2 L3 L4 L5 L6 L7 every C T
    row number priority S X D J L0 L1 L2 L3 L4 L5 L6 L7 heavy C H m T

    a b          all jobs take a/b times as long as their rows say
    number       a name, 1 to 255, each once
    priority     1 to 255, each once; a larger one is higher
    S X          how long a job suspends itself in all, and how often
    D            the deadline, counted from the release of a job
    J            how late a job may be released
    L0 .. L7     the longest section on each of the eight locks; 0 where the row never takes the lock
    every C T    jobs of length C, one every T ticks
    heavy C H m T    the same, but one job among m has length H

Report, a line for each row, highest first: row, number, bound, vector, blocking.
Refusal, one line: refused, line, field, check, late row. Lines and fields are counted from 1, and 0 says
that none is to blame. Tabs part the fields here too.

Checks:
     1  C or H is not 1 to 1,000,000, or H is below C
     2  T is not 1 to 1,000,000, or m is not 2 to 64
     3  J is not below T
     4  not 1 <= b <= a <= 1,000
     5  the row's number is not 1 to 255, or another row has it
     6  the same of its priority
     7  S is above 1,000,000, or X above 63, or just one of them is 0
     8  D is 0 or above T - J
     9  a section is longer than the longest job, which the clock has slowed
    10  a thirteenth row
    11  with this row some row is late; the first late one is named
    15  a line has too few fields or too many
    16  a field is not a number
    17  a field is not the word that is due there
    18  the file is above 4,096 bytes, or does not end with a newline

Exit status: 0 where every file has its report, 1 where one is refused, 2 where one cannot be read, an
answer cannot be written, or an argument is unknown; 2 goes before 1. A file that cannot be read is told on
standard error, and the others are answered still. A file with no rows has an empty report.

An argument that begins with - is unknown, but for --help; behind -- each is the name of a file.

Example. Meters, a card reader and a car, where meters and car share lock 0:

clock\t1\t1
row\t1\t30\t3\t1\t10\t0\t1\t0\t0\t0\t0\t0\t0\t0\tevery\t2\t10
row\t2\t20\t0\t0\t15\t0\t0\t0\t0\t0\t0\t0\t0\t0\tevery\t3\t16
row\t3\t10\t0\t0\t40\t0\t2\t0\t0\t0\t0\t0\t0\t0\tevery\t5\t40

It prints

row\t1\t9\t0\t4
row\t2\t9\t0\t2
row\t3\t14\t2\t0
";
