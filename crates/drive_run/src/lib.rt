//! A drive: the lines of its source as requests, steps and resets of a driver and a device, and the text of all that is
//! said.
#![tactic(auto)]

mod answer;
mod desk;
mod drain;
mod exchange;
mod line;
mod pattern;
mod run;
mod turn;

pub use run::drive;
pub use turn::Buffers;
