//! What `replay --help` prints.
pub(crate) const HELP: &str = "\
replay: reads a log of calls, and prints what each call is answered

    replay [FILE ..]

Each file is a log of its own; with no file the log is read from standard input. A log has one evening or
more. An evening begins with the number of a table, 0 to 255, and how many places it has, 0 to 12; the
clock line of a plan file follows. Behind these two stand calls on the table, one a line, in any order:

    table number places
    clock a b
    hold number priority S X D J L0 L1 L2 L3 L4 L5 L6 L7 every C T
    hold number priority S X D J L0 L1 L2 L3 L4 L5 L6 L7 heavy C H m T
    keep number
    release number
    withdraw number
    bound number
    rows

The fields of a hold are those of a row in a plan file, which `plan --help` explains. A newline ends each
line, which has at most 4,096 bytes with it, and one tab parts two fields. Another table line ends the
evening: what is held then is given up, and another evening begins.

Each line is answered before the next one is read. A table line and a clock line print nothing.

    held number                  the row is held
    kept number                  it is kept
    released number              its hold was released, and it is out
    withdrawn number             it was kept, and is out
    bound number bound vector    what is found for the row
    row number bound vector blocking held|kept
                                 for `rows`: a line for each row, highest first
    refused line field check late-row
                                 the line is refused. Lines and fields are counted from 1, and 0 says that
                                 none is to blame

Checks 1 to 9 and 11 are as `plan --help` says, of the rows that are in the table. The others:

    10  the table has no place left
    12  keep, release: no hold on this row is in hand
    13  withdraw, bound: no row has this number
    14  withdraw: the row is held
    15  the line has too few fields or too many
    16  a field is no number, or is above what may stand there
    17  a field is not a word that is due there
    18  the line has more than 4,096 bytes, or no newline; with line 0, the log ends where a table line or
        its clock line is due

After a line that is refused the log goes on; but where a table line or a clock line is due, or a line
begins with `table`, a refusal ends it. A line that is refused by 18 in an evening ends nothing.

Exit status: 0 where every line was well formed (5 to 14 are answers), 1 where some line was refused by 1
to 4 or 15 to 18, 2 if reading or writing fails, for want of memory, or for an unknown argument.

An argument that begins with - is unknown, but for --help; behind -- each is the name of a file.

Example. One table of twelve places, where a car is held and then kept:

table\t1\t12
clock\t1\t1
hold\t3\t10\t0\t0\t40\t0\t2\t0\t0\t0\t0\t0\t0\t0\tevery\t5\t40
keep\t3
bound\t3

It prints

held\t3
kept\t3
bound\t3\t5\t0
";
