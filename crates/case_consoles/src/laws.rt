//! The laws of stores, at a root of their group and along a history, and of what a server alone serves.
use gd_disk::MemDisk;
use gd_edges::{ChaChaDraws, TestSigner, TestVerifier};
use group_steps::what_is_served_are_steps_of_a_run;
use law_member_roots::{
    a_due_push_is_taken, a_later_reply_is_not_older, a_member_that_left_finds_no_path,
    a_member_with_its_due_pushes_has_the_traffic_key, a_push_under_another_root_is_malformed,
    a_repeated_push_is_stale, a_reply_is_at_its_root, a_sent_push_is_read,
    a_sent_push_leaves_a_store_of_its_group, a_store_at_a_root_has_its_epoch,
    later_batches_leave_a_root,
};
use law_store_steps::{
    a_due_push_is_taken_in_a_history, a_reply_is_kept_in_a_history, an_opened_group_has_keys,
    any_other_push_is_refused_in_a_history, each_store_is_one_of_the_group,
};
use server_steps::{nothing_was_served_yet, one_more_is_served};

/// Calls each law at a disk, a signer and a verifier where it has them as parameters.
pub fn call_laws() {
    laws_hold_of_a_disk_a_signer_and_a_verifier();
    laws_hold_of_what_is_served();
    laws_hold_of_a_signer_and_a_verifier();
    laws_hold_of_replies();
}

fn laws_hold_of_a_disk_a_signer_and_a_verifier() {
    an_opened_group_has_keys::<MemDisk, TestSigner, TestVerifier>();
    each_store_is_one_of_the_group::<MemDisk, TestSigner, TestVerifier>();
    a_reply_is_kept_in_a_history::<MemDisk, TestSigner, TestVerifier>();
    a_due_push_is_taken_in_a_history::<MemDisk, TestSigner, TestVerifier>();
    any_other_push_is_refused_in_a_history::<MemDisk, TestSigner, TestVerifier>();
}

fn laws_hold_of_what_is_served() {
    what_is_served_are_steps_of_a_run::<MemDisk, TestSigner, TestVerifier>();
    nothing_was_served_yet::<MemDisk, TestSigner, ChaChaDraws>();
    one_more_is_served::<MemDisk, TestSigner, ChaChaDraws>();
}

fn laws_hold_of_a_signer_and_a_verifier() {
    a_sent_push_is_read::<TestSigner, TestVerifier>();
    a_due_push_is_taken::<TestSigner, TestVerifier>();
    a_repeated_push_is_stale::<TestSigner, TestVerifier>();
    a_member_that_left_finds_no_path::<TestSigner, TestVerifier>();
    a_push_under_another_root_is_malformed::<TestSigner, TestVerifier>();
    a_sent_push_leaves_a_store_of_its_group::<TestSigner, TestVerifier>();
    a_member_with_its_due_pushes_has_the_traffic_key::<TestSigner, TestVerifier>();
}

fn laws_hold_of_replies() {
    a_reply_is_at_its_root();
    later_batches_leave_a_root();
    a_store_at_a_root_has_its_epoch();
    a_later_reply_is_not_older();
}
