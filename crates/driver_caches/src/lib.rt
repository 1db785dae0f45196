//! What a driver asks of the caches of its units.
#![tactic(auto)]

mod effects;
mod own;
mod ways;

pub use effects::{
    lapse_all, mark_ended, mark_loaded, mark_read, mark_response, mark_unloaded, mark_written,
    take_hint,
};
pub use own::{next_want, take_evicted, take_want};
pub use ways::plan_read;

#[cfg(test)]
mod tests;
