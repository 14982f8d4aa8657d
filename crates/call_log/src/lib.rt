//! Logs of calls on tables, answered line by line while they are read.
//!
//! Begin with [`replay`], the one function of this crate: it reads a log from any reader and writes to any writer what each line
//! is answered. It has a log in memory for one line at a time, so a log may be of any length, and it answers each line before it
//! reads the next, so who writes the log may wait for the answers. What a line means is in `planfile`, and what a table answers
//! in `runs`; `specs/Logs.antt` says what is written for a log. Times are in ticks of 100 microseconds.
#![tactic(auto)]

mod answering;
mod log;
mod rows;

pub use answering::replay;
