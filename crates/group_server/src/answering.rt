//! Datagrams that the server is given (RFC 6407 section 3).
ghost use Rattle.std.specs.Prelude.{◌≡◌};
ghost use Rattle.group_terms.specs.Names.{Name};
ghost use Rattle.group_model.specs.declared.entries.Asked.TheVariants as requests;
ghost use Rattle.group_server.specs.Answers.{answer_served};
ghost use Rattle.server_steps.specs.Joining.{JoinsHaveSessions};
ghost use Rattle.server_steps.specs.Serves.{Serves};
ghost use Rattle.server_steps.specs.Views.{server_of};

use crate::accepting::{begin_session, queue_join, reply_now};
use crate::judging::{refusal_to_first, refusal_to_third};
use crate::refusals::refusal_of;
use crate::replies::reply_of;
use crate::{GroupServer, Reply};
use gcks_core::Core;
use gd_disk::Disk;
use gd_edges::{Draws, Signer};
use group_model::Refusal;
use group_policy::Rules;
use pull_sessions::{Looked, LookedAt, Sessions, what_is_found_can_be_held};
use std::alloc::Global;

impl<D: Disk, G: Signer, R: Draws> GroupServer<D, G, R> {
    /// Answers a datagram: a first message by the second one, the third one of a member by the fourth one; of anybody else the join waits for the next batch.
    ///
    /// The first of these that holds is the answer: `NeedsReopen`; `Malformed` for the header; `UnknownPeer`; what was answered before, to the datagram that
    /// the session took last; `WrongStep`; `Malformed` or `BadHash` for the message that is due; of a first message `WrongGroup`; `Denied`; `AlreadyPending`;
    /// of the third message of who is no member `TreeFull`, `BatchFull`. `NoMemory`.
    pub fn serve(&mut self, alloc: Global, datagram: &[u8]) -> Result<Reply, Refusal>
        ensures { (asker : Name) → Serves D.Disk G.Signer R.Draws (requests.Serve asker datagram.now) (answer_served result) self.old self.new }
    {
        answer(
            alloc,
            &mut self.core,
            &self.rules,
            &mut self.sessions,
            datagram,
        )
    }
}

/// The order of what a datagram meets: whether the group is open; what the sessions find that it is; what was answered to it before; the first reason against a
/// first message, or against a third one; and who is a member.
fn answer<D: Disk, G: Signer, R: Draws>(
    alloc: Global,
    core: &mut Core<D, G, R>,
    rules: &Rules,
    sessions: &mut Sessions,
    datagram: &[u8],
) -> Result<Reply, Refusal>
    ensures serves { (asker : Name) → Serves D.Disk G.Signer R.Draws (requests.Serve asker datagram.now) (answer_served result)
        (server_of core.old rules.now sessions.old) (server_of core.new rules.now sessions.new) }
    ensures sound { JoinsHaveSessions core.old.queue sessions.old.sas → JoinsHaveSessions core.new.queue sessions.new.sas }
{
    what_is_found_can_be_held();
    core.prove_at_rest();
    sessions.prove_sound();
    if core.needs_reopen() {
        return Err(Refusal::NeedsReopen);
    }
    let Looked { member, what } = match sessions.look(alloc, datagram) {
        Ok(looked) => looked,
        Err(why) => return Err(refusal_of(why)),
    };
    match what {
        LookedAt::Repeat { kept } => Ok(reply_of(kept)),
        LookedAt::NewFirst { first } => match refusal_to_first(core, rules, &member, &first) {
            Some(why) => Err(why),
            None => begin_session(alloc, core, sessions, &member, first, datagram),
        },
        LookedAt::NextThird { third } => match refusal_to_third(core, rules, &member) {
            Some(why) => Err(why),
            None if core.is_member(&member) => {
                reply_now(alloc, core, sessions, &member, third, datagram)
            }
            None => queue_join(alloc, core, sessions, &member, third, datagram),
        },
    }
}
