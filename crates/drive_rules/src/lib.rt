//! The drives of a list of lines, with a driver that has a cache for each unit or none, and what holds of each drive.
#![tactic(auto)]

mod laws;

pub use laws::{drive_is_flat, drives_are_told, good_where_nothing_failed, hpb_changes_no_answer};
