//! A member's store.
ghost use Rattle.std.specs.Prelude.{◌≡◌, Result};
ghost use Rattle.group_terms.specs.declared.pushes.PushRefusal.{PushRefusal};
ghost use Rattle.push_msg.specs.Readings.{PushRead};
ghost use Rattle.member_store.specs.Steps.{IsAcceptance, IsOpening, IsRenewal, room_after};
ghost use Rattle.member_store.specs.Stores.{IsReply, leaf_of, root_epoch, store_of};

use crate::answers::{Older, Taken};
use crate::openings::open;
use crate::paths::{leaf_of, root_of};
use crate::takings::new_path;
use gd_edges::Verifier;
use group_terms::{Keyed, LkhId, Path, PushRefusal, TrafficValue};
use push_msg::{OpenBody, Room};
use std::fmt;
use std::marker::Model;

/// The keys that a member of a group has (RFC 6407 section 4): those of its path, and the traffic key. It lives in memory, and takes none
/// after it is made.
#[derive(Drop)]
pub struct MemberStore {
    spi: [u8; 16],
    path: Path,
    traffic: TrafficValue,
    traffic_epoch: u32,
    /// The number of the last push that was accepted.
    sequence: u32,
}

impl fmt::Debug for MemberStore {
    ghost use Rattle.std.specs.Prelude.{Some, codes};

    ghost debug_output = { λ _. Some (codes "MemberStore { .. }") };

    fn fmt<W: fmt::Write>(&self, f: &mut fmt::Formatter<W>) -> fmt::Result {
        f.write_str("MemberStore { .. }")
    }
}

impl Model for MemberStore {
    ghost use Rattle.kd_wire.specs.Texts.{IsPath};
    ghost use Rattle.member_store.specs.Stores.{Store};

    ghost Value = { Store };

    ghost view = { λ store. record {
      spi = store.spi;
      path = store.path;
      traffic = store.traffic;
      traffic_epoch = store.traffic_epoch;
      sequence = store.sequence;
    } };

    ghost invariant = { λ store. IsPath store.path };
}

impl MemberStore {
    /// The store of a member that was told these keys (RFC 6407 section 3.2): those from its leaf up to the root, whose epoch is that of the
    /// reply.
    pub fn new(keyed: Keyed) -> Self
        requires { IsReply keyed }
        ensures { result ≡ store_of keyed }
    {
        let (spi, traffic) = (keyed.spi, keyed.traffic);
        MemberStore {
            spi,
            path: keyed.path,
            traffic,
            traffic_epoch: keyed.epoch,
            sequence: keyed.sequence,
        }
    }

    /// Makes the store anew, for a member that was told its keys again, from its leaf up to the root.
    ///
    /// `Older` where the reply tells a lower number than the last one that was accepted, or the same and an epoch before that of the root.
    pub fn renew(&mut self, keyed: Keyed) -> Result<(), Older>
        requires { IsReply keyed }
        ensures { IsRenewal self.old keyed result self.new }
    {
        let (last, got) = (self.sequence, keyed.sequence);
        if got < last || (got == last && keyed.epoch < self.root_epoch()) {
            return Err(Older { last, got });
        }
        *self = MemberStore::new(keyed);
        Ok(())
    }

    /// Takes a datagram: new keys of the tree, or the traffic key of the epoch that the root has (RFC 6407 section 4). The room serves for
    /// any store. After a push that was opened, also one without a path to the root, it has the body of its key download; else no octets.
    ///
    /// Refused, in this order: a datagram without the header of a push (`Malformed`); one for another SPI (`OtherSpi`); one of which no
    /// push is read under the root's key (`Malformed`); one whose signature the verifier does not accept (`BadSignature`); one whose number
    /// is not greater than the last (`Stale`); and new keys of the tree that give this leaf none of the root (`NoPath`). A refusal leaves the
    /// store as it was.
    pub fn accept<V: Verifier>(
        &mut self,
        datagram: &[u8],
        verifier: &V,
        room: &mut Room,
    ) -> Result<Taken, PushRefusal>
        ensures step { IsAcceptance V.Verifier verifier.now self.old datagram.now result self.new }
        ensures room { (opening : Result PushRead PushRefusal) × IsOpening V.Verifier verifier.now self.old datagram.now opening
            × (room.new ≡ room_after opening) }
    {
        let open = match open(
            datagram,
            &self.spi,
            &self.path,
            self.sequence,
            verifier,
            room,
        ) {
            Ok(open) => open,
            Err(why) => return Err(why),
        };
        match open.body {
            OpenBody::Membership { span, .. } => {
                let Some(path) = new_path(&self.path, &span, room.text()) else {
                    return Err(PushRefusal::NoPath { leaf: self.leaf() });
                };
                self.path = path;
                self.sequence = open.sequence;
                Ok(Taken::Root {
                    epoch: self.root_epoch(),
                })
            }
            OpenBody::Traffic { traffic } => {
                let epoch = self.root_epoch();
                self.traffic = traffic;
                self.traffic_epoch = epoch;
                self.sequence = open.sequence;
                Ok(Taken::Traffic { epoch })
            }
        }
    }

    /// The traffic key of the reply, or of the last traffic push.
    pub fn traffic_key(&self) -> TrafficValue
        ensures { result ≡ self.now.traffic }
    {
        self.traffic
    }

    /// The epoch of that traffic key.
    pub fn traffic_epoch(&self) -> u32
        ensures { result ≡ self.now.traffic_epoch }
    {
        self.traffic_epoch
    }

    /// The epoch in which the root's key was made.
    pub fn root_epoch(&self) -> u32
        ensures { result ≡ root_epoch self.now }
    {
        root_of(self.path.keys()).made
    }

    /// The number of the last push that was accepted; of a store that has accepted none, that which the reply told.
    pub fn last_sequence(&self) -> u32
        ensures { result ≡ self.now.sequence }
    {
        self.sequence
    }

    /// The member's leaf.
    pub fn leaf(&self) -> LkhId
        ensures { result ≡ leaf_of self.now.path }
    {
        leaf_of(self.path.keys())
    }
}
