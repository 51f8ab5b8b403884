//! The way of a member's keys from its leaf up to the root, and what a batch encrypts on it (RFC 2627 section 5.4).
#![tactic(auto)]

pub use laws::{
    a_place_is_a_leaf, a_way_leads_up_to_the_root, an_encryption_goes_one_step_up, each_law_holds,
    each_member_has_a_place, encryptions_are_few, holders_stay_below_what_is_kept,
    the_root_is_given, who_leaves_has_a_new_way, who_stays_is_given_its_way,
    who_stays_keeps_its_leaf,
};

mod laws;
