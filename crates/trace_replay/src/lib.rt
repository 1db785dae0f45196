//! The program: it replays a trace of UPIUs against a device, or drives a device by its own driver, and prints the
//! UPIUs of both sides. Images of the chip are read before the lines and written behind them.
#![tactic(auto)]

mod driving;
mod image;
mod made;
mod program;
mod replay;
mod show;
mod snap;

pub use command_words::{
    GeometryFault, Limit, NamedNumbers, chip_of, each_refusal_is_told, geometry_fault, usage,
};
pub use program::run;
pub use run_output::{Outcome, Status};

#[cfg(test)]
mod chip_tests;
#[cfg(test)]
mod drive_tests;
#[cfg(test)]
mod image_tests;
#[cfg(test)]
mod row_tests;
#[cfg(test)]
mod tests;
#[cfg(test)]
mod texts;
#[cfg(test)]
mod words_tests;
