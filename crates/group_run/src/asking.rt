//! Questions to a group, and to its board.
ghost use Rattle.std.specs.Prelude.{◌≡◌, OnOk, OnErr};
ghost use Rattle.group_model.specs.declared.entries.Asked.TheVariants as requests;
ghost use Rattle.group_steps.specs.Questions.{IsQuestion};
ghost use Rattle.group_run.specs.Looks.{ShowsLast};
ghost use Rattle.group_run.specs.Stays.{MailStays, RulesStay};
ghost use Rattle.group_run.specs.Moves.{Moves, Serves};

use crate::GroupRun;
use gd_disk::Disk;
use gd_edges::{Draws, Signer};
use group_model::{Answer, Asked, MemberNames, NoMemory};
use server_steps::entry;
use std::alloc::Global;
use sym_closure::what_is_known_stays_known;

impl<D: Disk, G: Signer, R: Draws> GroupRun<D, G, R> {
    /// Asks who has which leaf.
    pub fn show(&mut self, alloc: Global) -> Result<(), NoMemory>
        ensures ok { OnOk result (Serves D.Disk G.Signer R.Draws self.old.members requests.Show self.old self.new) }
        ensures stays { OnOk result (MailStays self.old self.new) }
        ensures err { OnErr result (self.new ≡ self.old) }
    {
        what_is_known_stays_known();
        self.entries.reserve(1)?;
        let place = self.server.draws_at();
        let answer = self.server.show(alloc)?;
        self.entries.add(entry(Asked::Show, answer, place));
        Ok(())
    }

    /// Asks whether names derive the traffic key of an epoch from what they were given and what was sent so far; they do not
    /// where the group has no such epoch.
    pub fn derive(
        &mut self,
        alloc: Global,
        epoch: u32,
        members: MemberNames,
    ) -> Result<(), NoMemory>
        ensures ok { OnOk result (Moves D.Disk R.Draws (IsQuestion self.old.entries epoch members) self.old.members (requests.Derive epoch members) self.old self.new) }
        ensures stays { OnOk result (MailStays self.old self.new) }
        ensures err { OnErr result (self.new ≡ self.old) }
    {
        what_is_known_stays_known();
        self.entries.reserve(1)?;
        self.sent.follow(alloc, self.entries.items())?;
        let yes = self.sent.derives(alloc, members.names(), epoch)?;
        let place = self.server.draws_at();
        let asked = Asked::Derive { epoch, members };
        self.entries
            .add(entry(asked, Answer::Derived { yes }, place));
        Ok(())
    }

    /// Asks which pair of an epoch and a sequence number the board shows: that of the last batch or opening.
    pub fn look(&mut self) -> Result<(), NoMemory>
        ensures ok { OnOk result (Moves D.Disk R.Draws (ShowsLast self.old.entries) self.old.members requests.Now self.old self.new) }
        ensures stays { OnOk result (MailStays self.old self.new) }
        ensures err { OnErr result (self.new ≡ self.old) }
    {
        what_is_known_stays_known();
        self.entries.reserve(1)?;
        let place = self.server.draws_at();
        let seen = self.board.look(self.entries.items());
        let answer = Answer::Pair {
            epoch: seen.epoch,
            sequence: seen.sequence,
        };
        self.entries.add(entry(Asked::Now, answer, place));
        Ok(())
    }
}
