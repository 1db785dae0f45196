//! The host's cache of the device's map, region by region.
#![tactic(auto)]

mod bits;
mod cache;
mod slots;

pub use cache::Cache;

#[cfg(test)]
mod tests;
