//! What a run writes: text that is gathered and then written in large pieces, and how a run ends.
#![tactic(auto)]

mod ends;
mod gather;
mod output;
mod status;
#[cfg(test)]
mod tests;
mod turn;

pub use ends::{end_long, finish, refuse_line};
pub use gather::{make_room, push_failed, push_moved, push_step, write_before_read};
pub use output::{LINE_ROOM, OUTPUT_BYTES, Output};
pub use status::{Outcome, Status};
pub use turn::Turn;
