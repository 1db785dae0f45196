//! The words of the command line: the command, the chip and the logical unit that they name, and the limits of their
//! numbers.
#![tactic(auto)]

mod commands;
mod limits;
#[cfg(test)]
mod tests;
mod words;

pub use commands::usage;
pub use limits::{GeometryFault, Limit, NamedNumbers, each_refusal_is_told, geometry_fault};
pub use words::{Command, Driven, Generated, Named, Replayed, WordsFault, chip_of, command_of};
