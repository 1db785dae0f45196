//! The regions of a logical unit whose part of the map a host may hold, as its device sees them, and what the host is
//! to be told of them. The rules are this project's own.
#![tactic(auto)]

mod lists;
mod regions;
mod shape;
mod subregion;

pub use regions::Regions;
pub use shape::{Mode, Shape};

#[cfg(test)]
mod tests;
