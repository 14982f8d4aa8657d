//! Calls on a table of rows, made as data.
//!
//! Begin with [`Desk`]: a table together with the holds that it gave and that are not spent, so a call names a hold by its two
//! numbers and no caller can lose one. [`Desk::call`] makes a call and answers it at once, as for requests that come in one by
//! one. [`Desk::run`] runs a list of calls and answers them together, with the bounds of all rows at the end, and
//! [`Desk::open`] makes the table first. A [`Register`] has no holds in hand and needs no heap: a row is held and at once
//! kept, or held and at once given up.
//!
//! The contracts say of each call and each list that it is answered as the account of all calls before it answers, and of the
//! bounds and vectors that they are the best plan of the rows. They tie the code to histories of a table: `specs/Calls.antt`
//! says which event a call with its reply is, and `specs/Desk.antt` what is promised of a desk.
//!
//! Times are in ticks of 100 microseconds. Refusals bear the numbers of the checks that a table makes.
#![tactic(auto)]

mod call;
mod desk;
mod register;
#[cfg(test)]
mod tests;

pub use call::{Call, HoldId, NotHeld, Reply};
pub use desk::{Desk, Ran, RunRefusal};
pub use register::Register;
