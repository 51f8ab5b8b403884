//! Which traffic key a member has.
ghost use Rattle.std.specs.Prelude.{◌≡◌, OnOk, OnErr};
ghost use Rattle.group_model.specs.declared.entries.Asked.TheVariants as requests;
ghost use Rattle.member_steps.specs.Steps.{IsShowingKey};
ghost use Rattle.group_run.specs.Stays.{MailStays, RulesStay};
ghost use Rattle.group_run.specs.Moves.{Acts};

use crate::GroupRun;
use gd_disk::Disk;
use gd_edges::{Draws, Signer};
use group_model::{Asked, MemberName, NoMemory};
use server_steps::entry;
use sym_closure::what_is_known_stays_known;

impl<D: Disk, G: Signer, R: Draws> GroupRun<D, G, R> {
    /// Which traffic key a member has.
    pub fn key(&mut self, member: &MemberName) -> Result<(), NoMemory>
        ensures ok { OnOk result (Acts D.Disk R.Draws (IsShowingKey member.now) self.old.members (requests.Key member.now) self.old self.new) }
        ensures stays { OnOk result (MailStays self.old self.new) }
        ensures err { OnErr result (self.new ≡ self.old) }
    {
        what_is_known_stays_known();
        self.entries.reserve(1)?;
        let place = self.server.draws_at();
        let answer = self.members.key(member);
        let asked = Asked::Key { member: *member };
        self.entries.add(entry(asked, answer, place));
        Ok(())
    }
}
