//! What becomes of the stores of a group's members along the steps of its run (RFC 6407 section 4).
#![tactic(auto)]

pub use laws::{
    a_due_push_is_taken_in_a_history, a_reply_is_kept_in_a_history, an_opened_group_has_keys,
    an_own_fourth_message_is_taken_in_a_history, any_other_push_is_refused_in_a_history,
    each_store_is_one_of_the_group,
};

mod laws;
