//! Who is a peer.
ghost use Rattle.std.specs.Prelude.{◌≡◌, ◌||◌, List, IsTrue};
ghost use Rattle.group_terms.specs.Names.{Name, same_name};
ghost use Rattle.group_terms.specs.declared.phases.Phase1.{Phase1};
ghost use Rattle.group_peers.specs.declared.members.Peer.{Peer};
ghost use Rattle.group_peers.specs.Peers.{is_peer, store_of, with_peer};

/// Who is noted is a peer, and so is who was one before, and nobody else; the stores stay as they were.
pub fn who_is_noted_is_a_peer()
    ensures peers { (peers : List Peer) (phase : Phase1) (other : Name) →
        is_peer (with_peer peers phase) other ≡ (same_name other phase.member || is_peer peers other) }
    ensures itself { (peers : List Peer) (phase : Phase1) → IsTrue (is_peer (with_peer peers phase) phase.member) }
    ensures stores { (peers : List Peer) (phase : Phase1) (other : Name) → store_of (with_peer peers phase) other ≡ store_of peers other }
{}
