//! A member of a run, and what becomes of its store.
ghost use Rattle.group_peers.specs.Peers.{new_peer};
ghost use Rattle.std.specs.Prelude.{◌≡◌, ◌<◌, length, vec_len, vec_capacity, Some};
ghost use Rattle.member_store.specs.Stores.{IsReply, Store};
ghost use Rattle.group_peers.specs.Private.Places.{IsGivenTo, GivesAt, KeepsAt, introduced_at, store_at, with_loss_at};
ghost use Rattle.group_peers.specs.Steps.{IsKeeping, IsLeft};

use gd_edges::Verifier;
use group_terms::{Keyed, Octets, Phase1, PushRefusal};
use member_pull::MemberPull;
use member_store::{MemberStore, Older, Room, Taken};

/// A member of a run.
#[derive(Drop)]
pub struct Peer {
    /// Its phase 1 SA (RFC 6407 section 2), which has its name.
    pub phase: Phase1,
    /// Whether that was introduced to the server.
    pub introduced: bool,
    /// The pull that it began last.
    pub pull: Option<MemberPull>,
    /// The datagram that it sent last.
    pub sent: Option<Octets>,
    /// Whether the next datagram to it goes missing.
    pub loses: bool,
    /// Its store, once it was told its keys.
    pub store: Option<MemberStore>,
}

impl Peer {
    /// A peer with this SA, which has done nothing yet.
    pub(crate) fn new(phase: Phase1) -> Self
        ensures { result ≡ new_peer phase }
    {
        Peer {
            phase,
            introduced: false,
            pull: None,
            sent: None,
            loses: false,
            store: None,
        }
    }
}

/// The SA of the peer at this place is introduced.
pub(crate) fn introduce_at(peers: &mut Vec<Peer>, place: usize)
    requires { place < length peers.old.items }
    ensures items { peers.new.items ≡ introduced_at peers.old.items place }
    ensures len { vec_len peers.new ≡ vec_len peers.old }
    ensures capacity { vec_capacity peers.new ≡ vec_capacity peers.old }
{
    peers[place].introduced = true;
}

/// The next datagram to the peer at this place goes missing, or comes.
pub(crate) fn lose_at(peers: &mut Vec<Peer>, place: usize, loses: bool)
    requires { place < length peers.old.items }
    ensures items { peers.new.items ≡ with_loss_at peers.old.items place loses }
    ensures len { vec_len peers.new ≡ vec_len peers.old }
    ensures capacity { vec_capacity peers.new ≡ vec_capacity peers.old }
{
    peers[place].loses = loses;
}

/// Tells the peer at this place its keys.
pub(crate) fn keep_at(peers: &mut Vec<Peer>, place: usize, keyed: Keyed) -> Result<(), Older>
    requires place { place < length peers.old.items }
    requires reply { IsReply keyed }
    ensures keeps { KeepsAt peers.old.items place keyed result peers.new.items }
    ensures len { vec_len peers.new ≡ vec_len peers.old }
    ensures capacity { vec_capacity peers.new ≡ vec_capacity peers.old }
{
    keep(&mut peers[place].store, keyed)
}

/// Gives a datagram to the peer at this place.
pub(crate) fn give_at<V: Verifier>(
    peers: &mut Vec<Peer>,
    place: usize,
    datagram: &[u8],
    verifier: &V,
    room: &mut Room,
) -> Option<Result<Taken, PushRefusal>>
    requires { place < length peers.old.items }
    ensures step { GivesAt V.Verifier verifier.now peers.old.items place datagram.now result peers.new.items }
    ensures room { IsLeft V.Verifier verifier.now (store_at peers.old.items place) datagram.now room.old room.new }
    ensures len { vec_len peers.new ≡ vec_len peers.old }
    ensures capacity { vec_capacity peers.new ≡ vec_capacity peers.old }
{
    give(&mut peers[place].store, datagram, verifier, room)
}

/// Makes the store of these keys, or makes it anew.
fn keep(kept: &mut Option<MemberStore>, keyed: Keyed) -> Result<(), Older>
    requires { IsReply keyed }
    ensures { (store : Store) × (kept.new ≡ Some store) × IsKeeping kept.old keyed result store }
{
    match kept {
        Some(store) => store.renew(keyed),
        None => {
            *kept = Some(MemberStore::new(keyed));
            Ok(())
        }
    }
}

/// Gives a datagram to the store, if there is one.
fn give<V: Verifier>(
    kept: &mut Option<MemberStore>,
    datagram: &[u8],
    verifier: &V,
    room: &mut Room,
) -> Option<Result<Taken, PushRefusal>>
    ensures step { IsGivenTo V.Verifier verifier.now kept.old datagram.now result kept.new }
    ensures room { IsLeft V.Verifier verifier.now kept.old datagram.now room.old room.new }
{
    match kept {
        Some(store) => Some(store.accept(datagram, verifier, room)),
        None => None,
    }
}
