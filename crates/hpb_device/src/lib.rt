//! A UFS device that serves the commands of its logical units over a flash chip, one step at a time.
#![tactic(auto)]

mod accept;
mod advance;
mod counts;
mod device;
mod lists;
mod queue;
mod regions;
mod reply;
mod task;

pub use counts::Counts;
pub use device::{Device, Sent, Stepped, Waits};

#[cfg(test)]
mod tests;
