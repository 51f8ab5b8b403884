//! At which root of its group a member's store is: what a member has that is told its keys and given pushes (RFC 6407 sections 3.2 and 4).
#![tactic(auto)]

pub use laws::{
    a_due_push_is_taken, a_later_reply_is_not_older, a_member_that_left_finds_no_path,
    a_member_with_its_due_pushes_has_the_traffic_key, a_push_under_another_root_is_malformed,
    a_repeated_push_is_stale, a_reply_can_be_written, a_reply_is_at_its_root,
    a_reply_makes_a_store, a_sent_push_is_read, a_sent_push_leaves_a_store_of_its_group,
    a_store_at_a_root_has_its_epoch, later_batches_leave_a_root,
};

mod laws;
