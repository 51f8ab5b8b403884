//! Requests that touch neither the disk nor the draws: rules, leaves, and stops.
ghost use Rattle.std.specs.Prelude.{◌≡◌, ◌<◌, length, OnOk, OnErr};
ghost use Rattle.group_model.specs.declared.entries.Asked.TheVariants as requests;
ghost use Rattle.group_server.specs.Answers.{answer_rule};
ghost use Rattle.group_run.specs.Stays.{AddsRule, MailStays, RulesStay};
ghost use Rattle.group_run.specs.Moves.{Serves};

use crate::GroupRun;
use gd_disk::Disk;
use gd_edges::{Draws, Signer};
use group_model::{Answer, Asked, MemberName, NoMemory, Refusal, Rule};
use server_steps::{answer_done, entry};
use sym_closure::what_is_known_stays_known;

impl<D: Disk, G: Signer, R: Draws> GroupRun<D, G, R> {
    /// Adds a rule of who may join, after all others. The entry says its number. There may be fewer than 2^32 - 1 rules before.
    pub fn add_rule(&mut self, rule: Rule) -> Result<(), NoMemory>
        requires { length self.old.server.rules < 4294967295 }
        ensures ok { OnOk result (Serves D.Disk G.Signer R.Draws self.old.members (requests.AddRule rule) self.old self.new) }
        ensures rules { OnOk result (AddsRule rule self.old self.new) }
        ensures members { OnOk result (self.new.members ≡ self.old.members) }
        ensures err { OnErr result (self.new ≡ self.old) }
    {
        what_is_known_stays_known();
        self.entries.reserve(1)?;
        let place = self.server.draws_at();
        let added = &rule;
        let answer = answer_rule(self.server.add_rule(*added));
        let asked = Asked::AddRule { rule: *added };
        self.entries.add(entry(asked, answer, place));
        Ok(())
    }

    /// Asks to take a member out with the next batch. The entry says `Done`, or the first reason against it: `NeedsReopen`, `NotMember`, `AlreadyPending`,
    /// `BatchFull`.
    pub fn leave(&mut self, member: &MemberName) -> Result<(), NoMemory>
        ensures ok { OnOk result (Serves D.Disk G.Signer R.Draws self.old.members (requests.Leave member.now) self.old self.new) }
        ensures stays { OnOk result (MailStays self.old self.new) }
        ensures err { OnErr result (self.new ≡ self.old) }
    {
        what_is_known_stays_known();
        self.entries.reserve(1)?;
        let place = self.server.draws_at();
        let answer = answer_done(self.server.leave(member));
        let asked = Asked::Leave { member: *member };
        self.entries.add(entry(asked, answer, place));
        Ok(())
    }

    /// From now on the server answers that it has to be opened again.
    pub fn halt(&mut self) -> Result<(), NoMemory>
        ensures ok { OnOk result (Serves D.Disk G.Signer R.Draws self.old.members requests.Halt self.old self.new) }
        ensures stays { OnOk result (MailStays self.old self.new) }
        ensures err { OnErr result (self.new ≡ self.old) }
    {
        what_is_known_stays_known();
        self.entries.reserve(1)?;
        let place = self.server.draws_at();
        self.server.halt();
        self.entries.add(entry(Asked::Halt, Answer::Done, place));
        Ok(())
    }
}

/// What is answered to one more rule.
fn answer_rule(number: Result<u32, Refusal>) -> Answer
    ensures { result ≡ answer_rule number }
{
    match number {
        Ok(number) => Answer::RuleNumber { number },
        Err(why) => Answer::Refused { why },
    }
}
