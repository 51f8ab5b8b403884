//! Pushes that are given to members.
ghost use Rattle.std.specs.Prelude.{◌≡◌, true, length, MatchOption, OnOk, OnErr};
ghost use Rattle.group_model.specs.declared.entries.Asked.TheVariants as requests;
ghost use Rattle.member_steps.specs.Steps.{IsDelivery};
ghost use Rattle.group_steps.specs.Steps.{push_sent};
ghost use Rattle.group_run.specs.Deliveries.{IsFirstDue, NoneIsDue};
ghost use Rattle.group_run.specs.Stays.{MailStays, RulesStay};
ghost use Rattle.group_run.specs.Moves.{Acts, Serves};
ghost use Rattle.group_run.specs.Private.Dues.{IsFirstAt, IsFirstFrom, IsWaiting, NobodyWaits, NoneIsAt, NoneIsFrom};

use crate::sending::last_push;
use crate::{Delivery, GroupRun};
use gd_disk::Disk;
use gd_edges::{Draws, Signer, Verifier};
use group_model::{Asked, MemberName, NoMemory};
use group_peers::Peers;
use group_server::GroupServer;
use sent_pushes::{SentPushes, the_next_number_is_the_least};
use server_steps::entry;
use sym_closure::what_is_known_stays_known;

impl<D: Disk, G: Signer, R: Draws> GroupRun<D, G, R> {
    /// Gives a member the last push of this number that was sent (RFC 6407 section 4); where it has no store, or there is no such push, nothing happens.
    pub fn deliver<V: Verifier>(
        &mut self,
        verifier: &V,
        member: &MemberName,
        number: u32,
    ) -> Result<(), NoMemory>
        ensures ok { OnOk result (Acts D.Disk R.Draws (IsDelivery V.Verifier verifier.now member.now (push_sent self.old.entries number))
            self.old.members (requests.Deliver member.now number) self.old self.new) }
        ensures peers { length self.new.members.all ≡ length self.old.members.all }
        ensures stays { OnOk result (MailStays self.old self.new) }
        ensures err { OnErr result (self.new ≡ self.old) }
    {
        what_is_known_stays_known();
        self.entries.reserve(1)?;
        let place = self.server.draws_at();
        let push = last_push(self.entries.items(), &self.pushes, number);
        let answer = self.members.deliver(verifier, member, push);
        let asked = Asked::Deliver {
            member: *member,
            sequence: number,
        };
        self.entries.add(entry(asked, answer, place));
        Ok(())
    }

    /// The next push that is due to a member after the last one given, where all members are given what they missed: each present member that has a store, in
    /// the order of their first use, by rising number.
    pub fn next_delivery(&self, last: Option<Delivery>) -> Option<Delivery>
        ensures { MatchOption result (NoneIsDue self.now.server.core.tree.holders self.now.members.all self.now.entries last)
            (IsFirstDue self.now.server.core.tree.holders self.now.members.all self.now.entries last) }
    {
        match last {
            Some(last) => first_due(
                &self.server,
                self.members.all(),
                &self.pushes,
                last.place,
                last.number,
            ),
            None => first_due(&self.server, self.members.all(), &self.pushes, 0, 0),
        }
    }

    /// Notes that no push is given to anybody, since the server has to be opened again.
    pub fn refuse_deliveries(&mut self) -> Result<(), NoMemory>
        requires { self.old.server.core.needs_reopen ≡ true }
        ensures ok { OnOk result (Serves D.Disk G.Signer R.Draws self.old.members requests.DeliverAll self.old self.new) }
        ensures stays { OnOk result (MailStays self.old self.new) }
        ensures err { OnErr result (self.new ≡ self.old) }
    {
        what_is_known_stays_known();
        self.entries.reserve(1)?;
        let place = self.server.draws_at();
        let answer = self.server.refuse_deliveries();
        self.entries.add(entry(Asked::DeliverAll, answer, place));
        Ok(())
    }
}

/// The first push that is due at a place from this one on; at this place itself only pushes with a greater number than this one count.
fn first_due<D: Disk, G: Signer, R: Draws>(
    server: &GroupServer<D, G, R>,
    peers: &Peers,
    pushes: &SentPushes,
    from: usize,
    number: u32,
) -> Option<Delivery>
    ensures { MatchOption result (NoneIsFrom server.now.core.tree.holders peers.now.items pushes.now.items from number)
        (IsFirstFrom server.now.core.tree.holders peers.now.items pushes.now.items from number) }
{
    let mut after = number;
    for place in from..peers.len() {
        if let Some(delivery) = due_at(server, peers, pushes, place, after) {
            return Some(delivery);
        }
        after = 0;
    }
    None
}

/// The first push that is due to the member at this place, and whose number is greater than this one.
fn due_at<D: Disk, G: Signer, R: Draws>(
    server: &GroupServer<D, G, R>,
    peers: &Peers,
    pushes: &SentPushes,
    place: usize,
    after: u32,
) -> Option<Delivery>
    ensures { MatchOption result (NoneIsAt server.now.core.tree.holders peers.now.items pushes.now.items place after)
        (IsFirstAt server.now.core.tree.holders peers.now.items pushes.now.items place after) }
{
    the_next_number_is_the_least();
    let (member, last) = waiting_at(server, peers, place)?;
    let number = pushes.next_after(last.max(after))?;
    Some(Delivery {
        place,
        member,
        number,
    })
}

/// The present member at this place that has a store, and the number of the last push that this accepted.
fn waiting_at<D: Disk, G: Signer, R: Draws>(
    server: &GroupServer<D, G, R>,
    peers: &Peers,
    place: usize,
) -> Option<(MemberName, u32)>
    ensures { MatchOption result (NobodyWaits server.now.core.tree.holders peers.now.items place)
        (λ found. IsWaiting server.now.core.tree.holders peers.now.items place found.0 found.1) }
{
    if peers.len() <= place {
        return None;
    }
    let member = peers.name_at(place);
    if !server.is_member(&member) {
        return None;
    }
    let store = peers.store(&member)?;
    Some((member, store.last_sequence()))
}
