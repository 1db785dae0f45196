//! A device, and the moment of a replay that it stands at: what each of its calls leads to.
#![tactic(auto)]

mod calls;

pub use calls::{collect, receive, reset, step};
