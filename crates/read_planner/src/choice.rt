//! The kinds of a plan.
use arrayvec::ArrayVec;

/// How a read goes out.
#[derive(Drop)]
pub enum Plan {
    /// As a plain read: READ(10).
    Plain,
    /// As HPB READ with the entry of its first block.
    Single(u64),
    /// The entries of all its blocks go out first, in a list of this name, and then an HPB READ that names the list.
    Prefetch(u8, ArrayVec<u64, 255>),
}
