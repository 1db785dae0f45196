//! A driver of HPB devices: it sends what its callers ask for, with the entries that its caches keep of the devices'
//! maps, and keeps these caches up to date.
#![tactic(auto)]

mod driver;
mod submit;

pub use driver::Driver;
pub use submit::SubmitFault;

#[cfg(test)]
mod tests;
