//! The open commands of a driver of HPB devices: what it sends for them, and what the device's UPIUs make of them.
#![tactic(auto)]

mod exchange;
mod open;
mod opening;
mod queue;
mod units;

pub use exchange::{deliver_to, send_next};
pub use open::OpenCommand;
pub use opening::{list_bytes, open_command};
pub use queue::{TAGS, caller_tags, drop_commands, first_owing, first_waiting, loads};
pub use units::limits_of;

#[cfg(test)]
mod tests;
