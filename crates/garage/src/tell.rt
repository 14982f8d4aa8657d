//! What is printed of replies and of answers.
use analysis::Answers;
use runs::Reply;
use table::HoldRefusal;

// How many rows more the table of this number takes.
pub(crate) fn tell_room(rt: &HostRuntime, number: u8, room: usize) -> anyhow::Result<()> {
    println!(rt; "Table {number} has room for {room} rows.")?;
    Ok(())
}

// All rows with what is answered for them, highest first.
pub(crate) fn tell_rows(rt: &HostRuntime, answers: &Answers) -> anyhow::Result<()> {
    println!(rt; "The rows, highest first:")?;
    for answer in answers.rows() {
        println!(rt;
            "  row {}: bound {}, vector {}, blocking {}",
            answer.number, answer.bound, answer.vector, answer.blocking
        )?;
    }
    Ok(())
}

// What a call about a row was answered, where it was accepted.
fn tell_accepted(rt: &HostRuntime, row: u32, reply: Reply) -> anyhow::Result<()> {
    match reply {
        Reply::Hold(_) => println!(rt; "Row {row} is held.")?,
        Reply::Keep(_) => println!(rt; "Row {row} is kept.")?,
        Reply::Release(_) => println!(rt; "Row {row} is free.")?,
        Reply::Withdraw(_) => println!(rt; "Row {row} has left.")?,
        Reply::Bound(Ok((bound, vector))) => println!(rt;
            "  row {row} ends within {bound}, by the vector {vector}"
        )?,
        Reply::Bound(Err(_)) => {}
    }
    Ok(())
}

// The same, where it was refused by this number.
fn tell_refused(rt: &HostRuntime, row: u32, reply: Reply, why: u32) -> anyhow::Result<()> {
    match reply {
        Reply::Hold(Err(HoldRefusal::Late(late))) => println!(rt;
            "Row {row} is refused with number {why}: row {late} would be late."
        )?,
        Reply::Hold(_) => println!(rt; "Row {row} is refused with number {why}.")?,
        Reply::Keep(_) | Reply::Release(_) => println!(rt;
            "The hold on row {row} is refused with number {why}."
        )?,
        Reply::Withdraw(_) => println!(rt; "Row {row} cannot leave: refused with number {why}.")?,
        Reply::Bound(_) => println!(rt;
            "  row {row}: refused with number {why}, there is no such row"
        )?,
    }
    Ok(())
}

// What each call was answered, with the row that it was about.
pub(crate) fn tell_replies(
    rt: &HostRuntime,
    rows: &[u32],
    replies: &[Reply],
) -> anyhow::Result<()> {
    for (row, reply) in rows.iter().zip(replies) {
        match reply.number() {
            0 => tell_accepted(rt, *row, *reply)?,
            why => tell_refused(rt, *row, *reply, why)?,
        }
    }
    Ok(())
}
