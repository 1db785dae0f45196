//! What a flat unit, a plain list of blocks, allows: the events of a device, and what is said of lists of them.
#![tactic(auto)]

mod bytes;
mod event;
mod laws;

pub use bytes::Bytes;
pub use event::Event;
pub use laws::{
    drained_reads_are_over, each_drain_ends_reads, given_and_taken, good_moves_all,
    good_read_is_in_order, good_write_stands_alone, kept_tasks, one_block_where_none_is_cut,
    order_of_ends, other_events_change_no_block, reads_are_allowed, reads_end_good,
    rejects_what_is_no_upiu, shown_block_stands_alone, some_block_is_allowed, texts_tell_histories,
};
