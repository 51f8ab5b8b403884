//! Names of members and of groups, and the changes of a batch.
use group_terms::{Batch, Change, GroupName, MemberName};

#[test]
fn names_and_batches_are_as_given(rt: HostRuntime) {
    assert!(rt; batch_is_in_order() & groups_have_names());
}

fn batch_is_in_order() -> bool {
    let member = MemberName::read(b"a_1").unwrap_or_default();
    let changes = [Change::Out { member }, Change::default()];
    let mut batch = Batch::new();
    batch.push(changes[0]);
    batch.push(changes[1]);
    (batch.changes() == changes.as_slice())
        & (changes[0].member().text() == b"a_1".as_slice())
        & (changes[1].member().text() == b"_".as_slice())
}

/// Names of groups have any octets, and 32 at most; those of members have no capitals.
fn groups_have_names() -> bool {
    let any = match GroupName::read(&[0, 255]) {
        Some(name) => (name.text() == [0, 255].as_slice()) & (name != GroupName::default()),
        None => false,
    };
    any & GroupName::read(&[7; 32]).is_some()
        & GroupName::read(b"").is_none()
        & GroupName::read(&[7; 33]).is_none()
        & MemberName::read(b"A").is_none()
}
