//! Images of a chip: its pages as bytes, read and written as a stream. The format is this project's own. All numbers
//! are big-endian.
#![tactic(auto)]

mod dump;
mod fault;
mod laws;
mod load;
mod transfer;
mod version;

pub use dump::dump_image;
pub use fault::{DumpFault, ImageFault};
pub use laws::one_chip;
pub use load::load_image;
pub use version::Version;

#[cfg(test)]
mod tests;
