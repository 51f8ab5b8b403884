//! Pushes that were noted, by their numbers.
use group_terms::NoMemory;
use sent_pushes::{SentPushes, a_noted_push_is_found, the_next_number_is_the_least};
use std::alloc::Global;

#[test]
fn pushes_are_found_by_their_numbers(rt: HostRuntime) {
    a_noted_push_is_found();
    the_next_number_is_the_least();
    assert!(rt; are_found(rt.alloc()) == Ok(true));
}

fn are_found(alloc: Global) -> Result<bool, NoMemory> {
    let mut sent = SentPushes::new(alloc);
    sent.reserve(3)?;
    sent.note(7, 20);
    sent.note(3, 30);
    sent.note(3, 40);
    Ok(finds_the_last(&sent))
}

/// The last push of number 3 came from place 40, after one from place 30; that of number 7 from place 20. Numbers go up.
fn finds_the_last(sent: &SentPushes) -> bool {
    let found = (sent.find(3) == Some(40)) & (sent.find(7) == Some(20)) & sent.find(5).is_none();
    let next = (sent.next_after(0) == Some(3)) & (sent.next_after(3) == Some(7));
    found & next & sent.next_after(7).is_none()
}
