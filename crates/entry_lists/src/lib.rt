//! The lists of entries that a host prefetched, which its device keeps for the reads to come: at most one for each
//! logical unit and read id.
#![tactic(auto)]

mod lists;
mod slot;

pub use lists::EntryLists;

#[cfg(test)]
mod tests;
