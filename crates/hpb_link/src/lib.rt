//! A driver and a device that are joined: what one sends the other gets.
#![tactic(auto)]

mod link;
mod ticket;

pub use link::{Link, Submitted};
pub use ticket::{Ended, Ticket};

#[cfg(test)]
mod tests;
