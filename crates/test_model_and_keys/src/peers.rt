//! The peers of a run, one of which is told its keys.
ghost use Rattle.std.specs.Prelude.{◌≡◌, IsTrue, IfSome, OnSome};
ghost use Rattle.group_peers.specs.Peers.{is_peer};
ghost use Rattle.kd_wire.specs.Texts.{IsPath};
ghost use Rattle.member_store.specs.Stores.{IsReply, root_of};

use crate::draws::named;
use gd_edges::TestVerifier;
use group_peers::{Peers, who_is_noted_is_a_peer};
use group_terms::{Keyed, LkhId, MemberName, NodeValue, Path, PathKey, Phase1, TrafficValue};
use member_store::{
    Older, a_datagram_has_one_answer, a_refusal_changes_nothing, each_cause_has_its_refusal,
};
use std::alloc::Global;

#[test]
fn a_peer_keeps_the_newest_keys(rt: HostRuntime) {
    a_refusal_changes_nothing::<TestVerifier>();
    a_datagram_has_one_answer::<TestVerifier>();
    each_cause_has_its_refusal::<TestVerifier>();
    assert!(rt; newest_are_kept(rt.alloc()) == Some(true));
}

fn newest_are_kept(alloc: Global) -> Option<bool> {
    let mut peers = Peers::new(alloc);
    let are_kept = keeps_the_newest(&mut peers);
    drop(peers);
    are_kept
}

fn keeps_the_newest(peers: &mut Peers) -> Option<bool> {
    let (a, b) = (named(b'a'), named(b'b'));
    let first = tell(peers, &a, 3)? == Ok(());
    note(peers, &b)?;
    let second = tell(peers, &a, 4)? == Ok(());
    let third = tell(peers, &a, 3)? == Err(Older { last: 4, got: 3 });
    Some(first & second & third & has_newest(peers, &a, &b))
}

fn has_newest(peers: &Peers, a: &MemberName, b: &MemberName) -> bool {
    let last = match peers.store(a) {
        Some(store) => store.last_sequence(),
        None => 0,
    };
    (peers.len() == 2) & (last == 4) & peers.store(b).is_none()
}

/// Notes a member, unless it is there.
fn note(peers: &mut Peers, member: &MemberName) -> Option<()>
    ensures { OnSome result (IsTrue (is_peer peers.new.items member.now)) }
{
    who_is_noted_is_a_peer();
    match peers.phase(member) {
        Some(_) => Some(()),
        None => {
            peers.reserve(1).ok()?;
            peers.note(Phase1 {
                member: *member,
                cookies: [0; 16],
                skeyid_a: [0; 32],
                key: [0; 16],
                last: [0; 16],
            });
            Some(())
        }
    }
}

/// Notes a member and tells it its keys, where the last push had this number.
fn tell(peers: &mut Peers, member: &MemberName, last: u32) -> Option<Result<(), Older>> {
    let keyed = reply(last)?;
    note(peers, member)?;
    Some(peers.keep(member, keyed))
}

/// What the member at leaf 2 of a tree with two leaves is told in the first epoch, where the last push had this number.
fn reply(sequence: u32) -> Option<Keyed>
    ensures { IfSome result IsReply }
{
    let traffic = TrafficValue {
        cipher_key: [3; 16],
        integrity_key: [4; 32],
        spi: [0x85; 4],
    };
    Some(Keyed {
        epoch: 1,
        sequence,
        spi: [6; 16],
        path: path()?,
        traffic,
    })
}

/// The keys of its path.
fn path() -> Option<Path>
    ensures path { IfSome result IsPath }
    ensures made { IfSome result (λ path. (root_of path).made ≡ 1) }
{
    let (leaf, root) = (key(2)?, key(1)?);
    let mut path = Path::new();
    path.push(leaf);
    path.push(root);
    Some(path)
}

/// A key of the first epoch.
fn key(position: u16) -> Option<PathKey>
    ensures id { IfSome result (λ key. key.id ≡ position) }
    ensures made { IfSome result (λ key. key.made ≡ 1) }
{
    let value = NodeValue {
        iv: [1; 16],
        key: [2; 16],
    };
    Some(PathKey {
        id: LkhId::new(position)?,
        made: 1,
        value,
    })
}
