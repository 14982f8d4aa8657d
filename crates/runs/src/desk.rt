//! A table with its holds in hand, and calls that are made on it: one by one, or list after list.
ghost use Rattle.std.specs.Prelude.{◌≡◌, ◌≢◌, ℕ, ◌+◌, ◌<◌, ◌≤◌, [], ◌++◌, IfOk, IsFalse, IsTrue, OnErr, OnOk, map, position, vec_items, ◌↔◌};
ghost use Rattle.std.specs.Vec.{vec_len, vec_capacity};
ghost use Rattle.analysis.specs.Judge.{InTime, RowsAnswered, answers_of};
ghost use Rattle.table.specs.Agreement.{MatchesAccount};
ghost use Rattle.table.specs.History.{Continues, HasHistory, rows_at};
ghost use Rattle.table.specs.Memory.{Emptied};
ghost use Rattle.table.specs.Places.{has_held};
ghost use Rattle.runs.specs.Calls.{ContinuesBy, MakesCall, MakesCalls, hold_event, release_of, spend_event};
ghost use Rattle.runs.specs.Holds.{InHand, frame_of, frame_over, has_own, is_token};
ghost use Rattle.runs.specs.declared.desk.RunRefusal.TheVariants.{Memory as OutOfMemory};

use super::call::{Call, HoldId, NotHeld, Reply, Way};
use super::register::Register;
use analysis::{Answers, Task};
use demand::Kind;
use std::alloc::{AllocError, Global};
use std::error::Error;
use std::fmt;
use table::{Hold, HoldRefusal, SpendRefusal, Table};

/// A table and its holds in hand: those that it gave and that are not spent, one on each row that stands as held. A desk that is
/// let go gives up what is held still.
///
/// Calls come as data, and there are two ways to make them. [`Desk::call`] makes one and answers it at once. The others run a list
/// of calls and answer them together: [`Desk::run`], [`Desk::run_with`] and [`Desk::run_beside`] where holds of other tables may
/// be named, and [`Desk::open`], which makes the desk first.
pub struct Desk<'a, K: Kind> {
    register: Register<'a, K>,
    holds: Vec<Hold>,
    /// One of the holds is on each row that stands as held, and on no other.
    pub ghost in_hand: { InHand register.table (vec_items holds) },
}

/// What a list of calls came to.
#[derive(PartialEq, Eq, Debug, Drop)]
pub struct Ran {
    /// What each call answered, in order.
    pub replies: Vec<Reply>,
    /// What is answered for all rows at the end, highest row first: the bound and the vector that `bound` would answer, and the
    /// blocking. Bounds and blocking are in ticks.
    pub answers: Answers,
}

/// Why a list of calls is not run. No call was made then. It has no number, since no check of a table says it.
#[derive(Clone, Copy, PartialEq, Eq, Debug)]
pub enum RunRefusal {
    /// A hold that was handed in bears the number of the table that the calls are for.
    OwnHold,
    /// There is no memory for the replies, or for the holds that the calls may give.
    Memory,
}

impl fmt::Display for RunRefusal {
    fn fmt<W: fmt::Write>(&self, f: &mut fmt::Formatter<W>) -> fmt::Result {
        f.write_str(match self {
            RunRefusal::OwnHold =>
                "a hold that was handed in bears the number of this table: give each table a number of its own",
            RunRefusal::Memory =>
                "there is no memory for the replies or the holds: run fewer calls at a time",
        })
    }
}

impl Error for RunRefusal {}

impl From<AllocError> for RunRefusal {
    ghost from_gives = { λ _ r. r ≡ OutOfMemory };

    fn from(_: AllocError) -> RunRefusal {
        RunRefusal::Memory
    }
}

impl<'a, K: Kind + Drop> Desk<'a, K> {
    ghost use Rattle.runs.specs.Desk.{CalledAsPromised, KeepsPromise, RunsAsPromised, SameDesk, holds_of, table_of};

    /// An empty table of this number over row memory, and no hold. Of the row memory the first
    /// [`MOST_ROWS`](analysis::MOST_ROWS) places at most are used, and what stood there is let go. Tables whose holds meet have
    /// different numbers.
    pub fn new(heap: Global, number: u8, places: &'a mut [Option<Task<K>>]) -> Desk<'a, K>
        ensures history { HasHistory K.demand [] (table_of result) }
        ensures frame { frame_of (table_of result) ≡ frame_over number places.entry }
        ensures memory { Emptied places.old (table_of result).places.now }
    {
        Desk {
            register: Register::new(number, places),
            holds: Vec::new(heap),
        }
    }

    /// The table, to be looked at: its rows, their states, and how many it can still take.
    pub fn table(&self) -> &Table<'a, K>
        ensures { result.now ≡ table_of self.now }
    {
        self.register.table()
    }

    /// The holds in hand, in the order in which they were given.
    pub fn holds(&self) -> &[Hold]
        ensures value { result.now ≡ holds_of self.now }
        ensures in_hand { InHand (table_of self.now) result.now }
    {
        &self.holds
    }

    /// The number, the bound, the vector and the blocking of each row, highest row first. Bounds and blocking are in ticks.
    pub fn answers(&self) -> Answers
        ensures in_time { InTime (rows_at K.demand (table_of self.now)) (answers_of result) }
        ensures account { MatchesAccount K.demand
            (λ a. RowsAnswered a.rows (answers_of result)) (table_of self.now) }
    {
        self.register.answers()
    }

    /// Makes one call, and answers it. What the table refuses is a reply and no error. A call that names a hold which is not in
    /// hand is answered as the table would answer that hold. The only error is want of memory, for the hold that the call may
    /// give; then the call is not made, and nothing has changed.
    pub fn call(&mut self, heap: Global, call: Call<K>) -> Result<Reply, AllocError>
        ensures promise { IfOk result (λ reply.
            CalledAsPromised K.demand call reply (table_of self.old) (table_of self.new)) }
        ensures frame { frame_of (table_of self.new) ≡ frame_of (table_of self.old) }
        ensures refused { OnErr result (SameDesk self.old self.new) }
    {
        self.holds.reserve(1)?;
        let mut none = Vec::new(heap);
        let reply = self.make(call, &mut none);
        none.destroy_empty();
        Ok(reply)
    }

    /// Runs a list of calls, in order, each on what the one before it left. A refused call is a reply, and the next one is made.
    /// A call that names a hold which is not in hand is answered as the table would answer that hold. The only error is want of
    /// memory: it comes before any call is made, and nothing has changed.
    pub fn run(&mut self, heap: Global, calls: Vec<Call<K>>) -> Result<Ran, AllocError>
        ensures promise { IfOk result (λ ran.
            RunsAsPromised K.demand (vec_items calls) ran (table_of self.old) (table_of self.new)) }
        ensures frame { frame_of (table_of self.new) ≡ frame_of (table_of self.old) }
        ensures refused { OnErr result (SameDesk self.old self.new) }
    {
        let replies = self.room_for(heap, calls.len())?;
        let mut none = Vec::new(heap);
        let ran = self.make_listed(calls, &mut none, replies);
        none.destroy_empty();
        Ok(ran)
    }

    /// As [`Desk::run`], where holds of other tables are handed in. A call that names one of them hands it to the table, which
    /// hands it back, and all are where they were when this returns.
    ///
    /// An error comes before any call is made, and nothing has changed then: [`RunRefusal::OwnHold`] where a hold that was handed
    /// in bears the table's own number, else [`RunRefusal::Memory`].
    pub fn run_with(
        &mut self,
        heap: Global,
        calls: Vec<Call<K>>,
        foreign: &mut Vec<Hold>,
    ) -> Result<Ran, RunRefusal>
        ensures promise { IfOk result (λ ran.
            RunsAsPromised K.demand (vec_items calls) ran (table_of self.old) (table_of self.new)) }
        ensures frame { frame_of (table_of self.new) ≡ frame_of (table_of self.old) }
        ensures foreign { vec_items foreign.new ≡ vec_items foreign.old }
        ensures own_hold { (result ≡ Err RunRefusal.OwnHold)
            ↔ IsTrue (has_own (table_of self.old).number (vec_items foreign.old)) }
        ensures refused { OnErr result (SameDesk self.old self.new) }
    {
        if brings_own(foreign, self.register.number()) {
            return Err(RunRefusal::OwnHold);
        }
        let replies = self.room_for(heap, calls.len())?;
        Ok(self.make_listed(calls, foreign, replies))
    }

    /// As [`Desk::run_with`], where the holds of other tables are those in hand at another desk, which is as it was then.
    pub fn run_beside<L: Kind + Drop>(
        &mut self,
        heap: Global,
        calls: Vec<Call<K>>,
        other: &mut Desk<'_, L>,
    ) -> Result<Ran, RunRefusal>
        ensures promise { IfOk result (λ ran.
            RunsAsPromised K.demand (vec_items calls) ran (table_of self.old) (table_of self.new)) }
        ensures frame { frame_of (table_of self.new) ≡ frame_of (table_of self.old) }
        ensures other { SameDesk other.old other.new }
        ensures own_hold { (result ≡ Err RunRefusal.OwnHold)
            ↔ IsTrue (has_own (table_of self.old).number (holds_of other.old)) }
        ensures refused { OnErr result (SameDesk self.old self.new) }
    {
        self.run_with(heap, calls, &mut other.holds)
    }

    /// Makes a table over row memory, as [`Desk::new`], and runs a list of calls on it, as [`Desk::run_with`]. The desk comes back
    /// with the holds that are in hand then, and more calls can be made on it. The errors are those of `run_with`; what stood in
    /// the row memory is let go then too.
    pub fn open(
        heap: Global,
        number: u8,
        places: &'a mut [Option<Task<K>>],
        calls: Vec<Call<K>>,
        foreign: &mut Vec<Hold>,
    ) -> Result<(Desk<'a, K>, Ran), RunRefusal>
        ensures promise { IfOk result (λ r.
            KeepsPromise K.demand [] (vec_items calls) r.1 (table_of r.0)) }
        ensures frame { IfOk result (λ r.
            frame_of (table_of r.0) ≡ frame_over number places.entry) }
        ensures foreign { vec_items foreign.new ≡ vec_items foreign.old }
        ensures own_hold { (result ≡ Err RunRefusal.OwnHold)
            ↔ IsTrue (has_own number (vec_items foreign.old)) }
    {
        let mut desk = Desk::new(heap, number, places);
        let ran = desk.run_with(heap, calls, foreign)?;
        Ok((desk, ran))
    }

    /// Gives up what is held still: each hold in hand is released, the last one first. The table comes back, with the rows that
    /// were kept.
    pub fn close(self) -> Table<'a, K>
        ensures history { ContinuesBy K.demand
            (λ es. map release_of (holds_of self.entry) ++ es) (table_of self.entry) result }
        ensures none_held { (n : ℕ) → IsFalse (has_held result n) }
        ensures frame { frame_of result ≡ frame_of (table_of self.entry) }
    {
        let Desk {
            mut register,
            mut holds,
        } = self;
        while let Some(hold) = holds.pop() {
            register.give_up(hold);
        }
        holds.destroy_empty();
        let Register { table } = register;
        table
    }

    // Room for so many replies, and for so many holds more.
    fn room_for(&mut self, heap: Global, count: usize) -> Result<Vec<Reply>, AllocError>
        ensures none { IfOk result (λ replies. vec_items replies ≡ []) }
        ensures replies { IfOk result (λ replies. count ≤ vec_capacity replies) }
        ensures holds { OnOk result
            (vec_len self.new.holds + count ≤ vec_capacity self.new.holds) }
        ensures same { SameDesk self.old self.new }
    {
        let replies = Vec::with_capacity(heap, count)?;
        self.holds.reserve(count)?;
        Ok(replies)
    }

    // The calls are made, and all rows are answered then.
    fn make_listed(
        &mut self,
        calls: Vec<Call<K>>,
        foreign: &mut Vec<Hold>,
        mut replies: Vec<Reply>,
    ) -> Ran
        requires none { vec_items replies ≡ [] }
        requires replies { vec_len calls ≤ vec_capacity replies }
        requires holds { vec_len self.old.holds + vec_len calls ≤ vec_capacity self.old.holds }
        ensures promise { RunsAsPromised K.demand (vec_items calls) result
            (table_of self.old) (table_of self.new) }
        ensures frame { frame_of (table_of self.new) ≡ frame_of (table_of self.old) }
        ensures foreign { vec_items foreign.new ≡ vec_items foreign.old }
    {
        self.make_all(calls, foreign, &mut replies);
        let answers = self.answers();
        Ran { replies, answers }
    }

    // A row is held. The hold comes to hand.
    fn take_in(&mut self, task: Task<K>) -> Result<(), HoldRefusal>
        requires { vec_len self.old.holds < vec_capacity self.old.holds }
        ensures history { Continues K.demand
            (hold_event K.demand (table_of self.old).number task result)
            (table_of self.old) (table_of self.new) }
        ensures frame { frame_of (table_of self.new) ≡ frame_of (table_of self.old) }
        ensures one_more { vec_len self.new.holds ≤ vec_len self.old.holds + 1 }
        ensures capacity { vec_capacity self.new.holds ≡ vec_capacity self.old.holds }
    {
        let hold = self.register.hold(task)?;
        self.holds.push_reserved(hold);
        Ok(())
    }

    // The hold in hand that bears these numbers is spent, if there is one.
    fn spend_own(&mut self, way: Way, id: HoldId) -> Result<(), NotHeld>
        requires { id.table ≡ (table_of self.old).number }
        ensures history { Continues K.demand (spend_event way id result)
            (table_of self.old) (table_of self.new) }
        ensures frame { frame_of (table_of self.new) ≡ frame_of (table_of self.old) }
        ensures no_more { vec_len self.new.holds ≤ vec_len self.old.holds }
        ensures capacity { vec_capacity self.new.holds ≡ vec_capacity self.old.holds }
    {
        let place = place_of(&self.holds, id).ok_or(NotHeld)?;
        let hold = self.holds.remove(place);
        self.register.spend_held(way, hold);
        Ok(())
    }

    // The hold of another table that bears these numbers, if one was handed in, is handed to this table and comes back.
    fn offer(&mut self, way: Way, id: HoldId, foreign: &mut Vec<Hold>) -> Result<(), NotHeld>
        requires { id.table ≢ (table_of self.old).number }
        ensures history { Continues K.demand (spend_event way id result)
            (table_of self.old) (table_of self.new) }
        ensures frame { frame_of (table_of self.new) ≡ frame_of (table_of self.old) }
        ensures holds { self.new.holds ≡ self.old.holds }
        ensures foreign { vec_items foreign.new ≡ vec_items foreign.old }
    {
        if let Some(place) = place_of(foreign, id) {
            let hold = foreign.remove(place);
            let SpendRefusal::NotHeld(back) = self.register.spend(way, hold).unwrap_err();
            foreign.insert(place, back).unwrap();
        }
        Err(NotHeld)
    }

    // The hold that bears these numbers is spent, or it comes back to where it was.
    fn spend(&mut self, way: Way, id: HoldId, foreign: &mut Vec<Hold>) -> Result<(), NotHeld>
        ensures history { Continues K.demand (spend_event way id result)
            (table_of self.old) (table_of self.new) }
        ensures frame { frame_of (table_of self.new) ≡ frame_of (table_of self.old) }
        ensures no_more { vec_len self.new.holds ≤ vec_len self.old.holds }
        ensures capacity { vec_capacity self.new.holds ≡ vec_capacity self.old.holds }
        ensures foreign { vec_items foreign.new ≡ vec_items foreign.old }
    {
        if id.table == self.register.number() {
            self.spend_own(way, id)
        } else {
            self.offer(way, id, foreign)
        }
    }

    // A call is made.
    fn make(&mut self, call: Call<K>, foreign: &mut Vec<Hold>) -> Reply
        requires { vec_len self.old.holds < vec_capacity self.old.holds }
        ensures history { MakesCall K.demand call result
            (table_of self.old) (table_of self.new) }
        ensures frame { frame_of (table_of self.new) ≡ frame_of (table_of self.old) }
        ensures one_more { vec_len self.new.holds ≤ vec_len self.old.holds + 1 }
        ensures capacity { vec_capacity self.new.holds ≡ vec_capacity self.old.holds }
        ensures foreign { vec_items foreign.new ≡ vec_items foreign.old }
    {
        match call {
            Call::Hold(task) => Reply::Hold(self.take_in(task)),
            Call::Keep(id) => Reply::Keep(self.spend(Way::KeepRow, id, foreign)),
            Call::Release(id) => Reply::Release(self.spend(Way::GiveUp, id, foreign)),
            Call::Withdraw(number) => Reply::Withdraw(self.register.withdraw(number)),
            Call::Bound(number) => Reply::Bound(self.register.bound(number)),
        }
    }

    // The calls are made one after the other, and each reply is put behind those before.
    fn make_all(&mut self, calls: Vec<Call<K>>, foreign: &mut Vec<Hold>, replies: &mut Vec<Reply>)
        requires none { vec_items replies.old ≡ [] }
        requires replies { vec_len calls ≤ vec_capacity replies.old }
        requires holds { vec_len self.old.holds + vec_len calls ≤ vec_capacity self.old.holds }
        ensures history { MakesCalls K.demand (vec_items calls) (vec_items replies.new)
            (table_of self.old) (table_of self.new) }
        ensures frame { frame_of (table_of self.new) ≡ frame_of (table_of self.old) }
        ensures foreign { vec_items foreign.new ≡ vec_items foreign.old }
    {
        let mut left = calls.into_iter();
        while let Some(call) = left.next() {
            let reply = self.make(call, foreign);
            replies.push_reserved(reply);
        }
    }
}

impl<K: Kind + Drop> Drop for Desk<'_, K> {
    fn drop(self) {
        self.close();
    }
}

// Whether a hold bears this table's number.
fn brings_own(holds: &[Hold], table: u8) -> bool
    ensures { result ≡ has_own table holds.now }
{
    holds.iter().any(|hold| hold.table() == table)
}

// The place of the hold that bears these numbers.
fn place_of(holds: &[Hold], id: HoldId) -> Option<usize>
    ensures { result ≡ position (is_token id.table id.row) holds.now }
{
    holds
        .iter()
        .position(|hold| hold.table() == id.table && hold.row() == id.row)
}
