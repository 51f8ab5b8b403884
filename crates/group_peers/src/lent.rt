//! What a peer lends, so that its datagrams can be read elsewhere.
ghost use Rattle.std.specs.Prelude.{◌≡◌, ◌<◌, length, vec_capacity, vec_len};
ghost use Rattle.std.specs.List.{All};
ghost use Rattle.group_peers.specs.Lent.{with_back};
ghost use Rattle.group_peers.specs.Private.Lent.{HasBothOrNone, LendsAt, LendsOf, with_back_at};

use crate::members::Peer;
use group_terms::Octets;
use member_pull::MemberPull;

/// What a member lends, to be given back: its pull, and what belongs to it.
#[derive(Drop)]
pub struct Lent {
    /// The pull that it began last.
    pub pull: MemberPull,
    /// The datagram that it sent last.
    pub sent: Octets,
    /// Whether the next datagram to it goes missing.
    pub loses: bool,
}

/// The peer at this place lends its pull and the datagram that it sent last, if it has them.
pub(crate) fn lend_at(peers: &mut Vec<Peer>, place: usize) -> Option<Lent>
    requires place { place < length peers.old.items }
    requires both { All HasBothOrNone peers.old.items }
    ensures lends { LendsAt peers.old.items place result peers.new.items }
    ensures len { vec_len peers.new ≡ vec_len peers.old }
    ensures capacity { vec_capacity peers.new ≡ vec_capacity peers.old }
{
    lend(&mut peers[place])
}

/// The peer at this place has them back.
pub(crate) fn take_back_at(peers: &mut Vec<Peer>, place: usize, lent: Lent)
    requires { place < length peers.old.items }
    ensures items { peers.new.items ≡ with_back_at peers.old.items place lent }
    ensures len { vec_len peers.new ≡ vec_len peers.old }
    ensures capacity { vec_capacity peers.new ≡ vec_capacity peers.old }
{
    take_back(&mut peers[place], lent);
}

/// Lends pull and datagram, if the peer has them.
fn lend(peer: &mut Peer) -> Option<Lent>
    requires { HasBothOrNone peer.old }
    ensures { LendsOf peer.old result peer.new }
{
    let pull = peer.pull.take()?;
    let sent = peer.sent.take()?;
    let loses = peer.loses;
    Some(Lent { pull, sent, loses })
}

/// Has them back.
fn take_back(peer: &mut Peer, lent: Lent)
    ensures { peer.new ≡ with_back lent peer.old }
{
    peer.pull = Some(lent.pull);
    peer.sent = Some(lent.sent);
    peer.loses = lent.loses;
}
