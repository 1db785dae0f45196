//! A drive that is made from a seed, and a tally of its answers in place of their text.
#![tactic(auto)]

mod generator;
mod laws;
mod scan;
mod source;
mod tally;
#[cfg(test)]
mod tests;
mod text;
mod written;

pub use generator::Generator;
pub use laws::{answers_are_tallied, made_lines_are_said};
pub use scan::{Place, Scan};
pub use source::{MadeSource, made_counts};
pub use tally::Tally;
