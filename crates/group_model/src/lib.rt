//! A group as a plain list of batches: who has which leaf, which key is new when, and what is encrypted under what; and the
//! entries of which a history of the key server is made.
#![tactic(auto)]

pub use batch_fits::fits;
pub use entries::{
    Answer, Asked, Counter, Derivation, Entry, GroupSeen, Output, Outside, PushPair, Refusal,
    SentReply, Standing, SymReply,
};
pub use group_terms::{
    Batch, Change, KeyName, List, LkhId, Log, MOST_CHANGES, MOST_MEMBERS, MemberName, MemberNames,
    NoMemory, Octets, Phase1, PushRefusal, Rule, Wrap,
};
pub use history::History;
pub use indexes::NameIndex;
pub use laws::{
    a_batch_says_who_is_a_member, a_batch_that_fits_has_few_changes,
    a_batch_that_wraps_uses_two_numbers, drawn_positions_rise, each_leaf_has_its_place,
    first_epochs_stay, granted_changes_fit, laws_hold, members_never_share_a_leaf,
    no_name_has_two_leaves, places_are_held, places_stay_while_members_stay, replies_go_to_members,
};

mod batch_fits;
mod entries;
mod handovers;
mod history;
mod indexes;
mod laws;
mod paths;
mod trees;
