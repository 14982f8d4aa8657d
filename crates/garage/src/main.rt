//! An evening at a charging cabinet: calls are run on a desk, list after list, and each reply is told.
//!
//! It shows how a program uses `runs`. Begin with `main` and `evening`; `rows` has the rows, and `tell` what is printed. Times are
//! in ticks of 100 microseconds.
#![tactic(auto)]

mod rows;
mod tell;

use analysis::MOST_ROWS;
use demand::Every;
use rows::{FAST, NIGHT, SLOW, car, card_reader, meters};
use runs::{Call, Desk, HoldId, Reply};
use std::alloc::{AllocError, Global};
use tell::{tell_replies, tell_room, tell_rows};

// The number of the first table and of the second.
const FIRST: u8 = 1;

const SECOND: u8 = 2;

// The calls that spend the hold of the first table on a row: with a known card it is kept, with an unknown one given up.
fn keep(row: u32) -> Call<Every> {
    Call::Keep(HoldId { table: FIRST, row })
}

fn give_up(row: u32) -> Call<Every> {
    Call::Release(HoldId { table: FIRST, row })
}

fn rows_of(heap: Global, calls: &[Call<Every>]) -> Result<Vec<u32>, AllocError> {
    calls.iter().map(|call| call.row()).collect(heap)
}

// Runs a list of calls, and tells what each was answered.
fn play<const N: usize>(
    rt: &HostRuntime,
    desk: &mut Desk<'_, Every>,
    calls: [Call<Every>; N],
) -> anyhow::Result<()> {
    let heap = rt.alloc();
    let calls = Vec::from_array(heap, calls)?;
    let rows = rows_of(heap, &calls)?;
    let ran = desk.run(heap, calls)?;
    tell_replies(rt, &rows, &ran.replies)
}

// The card reader starts beside the meters.
fn open(rt: &HostRuntime, desk: &mut Desk<'_, Every>) -> anyhow::Result<()> {
    println!(rt; "The card reader starts as row 2.")?;
    play(rt, desk, [Call::Hold(card_reader()), keep(2)])?;
    tell_rows(rt, &desk.answers())
}

// One car with a known card, and one with an unknown card, which changes no bound.
fn two_cars(rt: &HostRuntime, desk: &mut Desk<'_, Every>) -> anyhow::Result<()> {
    println!(rt; "A car with a known card is plugged in as row 3.")?;
    play(rt, desk, [Call::Hold(car(3, 10, SLOW)), keep(3)])?;
    tell_rows(rt, &desk.answers())?;
    println!(rt; "A car with an unknown card is plugged in as row 4.")?;
    play(rt, desk, [Call::Hold(car(4, 9, SLOW)), give_up(4)])?;
    tell_rows(rt, &desk.answers())
}

// A car that would make another late, and is taken after that one has left.
fn wait_for_place(rt: &HostRuntime, desk: &mut Desk<'_, Every>) -> anyhow::Result<()> {
    println!(rt; "A fast car is plugged in as row 5.")?;
    play(rt, desk, [Call::Hold(car(5, 15, FAST))])?;
    println!(rt; "The car of row 3 is unplugged.")?;
    play(rt, desk, [Call::Withdraw(3)])?;
    println!(rt; "The fast car asks again.")?;
    play(rt, desk, [Call::Hold(car(5, 15, FAST)), keep(5)])?;
    tell_rows(rt, &desk.answers())
}

// The second table gives a hold, which is handed to the first and comes back, and is released where it came from.
fn mix_up(
    rt: &HostRuntime,
    desk: &mut Desk<'_, Every>,
    other: &mut Desk<'_, Every>,
) -> anyhow::Result<()> {
    let heap = rt.alloc();
    let hold = HoldId {
        table: SECOND,
        row: 6,
    };
    let given = Vec::from_array(heap, [Call::Hold(car(6, 5, SLOW))])?;
    other.run(heap, given)?;
    let handed = Vec::from_array(heap, [Call::Keep(hold)])?;
    let ran = desk.run_beside(heap, handed, other)?;
    for reply in &ran.replies {
        println!(rt;
            "The hold of table {} on row {} is handed back: refused with number {}.",
            hold.table,
            hold.row,
            reply.number()
        )?;
    }
    println!(rt; "It is released at table {}.", hold.table)?;
    play(rt, other, [Call::Release(hold)])
}

// A second table of four places.
fn second_table(rt: &HostRuntime, desk: &mut Desk<'_, Every>) -> anyhow::Result<()> {
    println!(rt; "A second table gives a hold, which is handed to the first.")?;
    let mut places = [None; 4];
    let mut other = Desk::new(rt.alloc(), SECOND, &mut places);
    tell_room(rt, SECOND, other.table().room())?;
    mix_up(rt, desk, &mut other)
}

// A row is asked to leave while it is held, and then kept.
fn leave_early(rt: &HostRuntime, desk: &mut Desk<'_, Every>) -> anyhow::Result<()> {
    println!(rt; "A car for the night is plugged in as row 6, and unplugged while it is held.")?;
    play(
        rt,
        desk,
        [Call::Hold(car(6, 5, NIGHT)), Call::Withdraw(6), keep(6)],
    )?;
    println!(rt; "The bounds of the rows 1 to 6:")?;
    play(
        rt,
        desk,
        [
            Call::Bound(1),
            Call::Bound(2),
            Call::Bound(3),
            Call::Bound(4),
            Call::Bound(5),
            Call::Bound(6),
        ],
    )
}

// What comes after the meters.
fn evening(rt: &HostRuntime, desk: &mut Desk<'_, Every>) -> anyhow::Result<()> {
    open(rt, desk)?;
    two_cars(rt, desk)?;
    wait_for_place(rt, desk)?;
    second_table(rt, desk)?;
    leave_early(rt, desk)?;
    tell_room(rt, FIRST, desk.table().room())
}

fn main(rt: HostRuntime) -> anyhow::Result<()> {
    let heap = rt.alloc();
    let mut places = [None; MOST_ROWS];
    tell_room(&rt, FIRST, places.len())?;
    println!(rt; "The meters start as row 1.")?;
    let calls = Vec::from_array(heap, [Call::Hold(meters()), keep(1)])?;
    let rows = rows_of(heap, &calls)?;
    let mut none = Vec::new(heap);
    let opened = Desk::open(heap, FIRST, &mut places, calls, &mut none);
    none.destroy_empty();
    let (mut desk, ran) = opened?;
    tell_replies(&rt, &rows, &ran.replies)?;
    evening(&rt, &mut desk)
}
