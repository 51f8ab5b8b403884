//! Closing a batch.
ghost use Rattle.std.specs.Prelude.{◌≡◌, ◌+◌, ◌<◌, ◌^◌, List as Items, IfSome, IfOk};
ghost use Rattle.group_terms.specs.declared.patterns.Rule.{Rule};
ghost use Rattle.group_model.specs.declared.entries.Asked.TheVariants as requests;
ghost use Rattle.server_steps.specs.Joining.{JoinsHaveSessions};
ghost use Rattle.server_steps.specs.Serves.{Serves, answer_batch};
ghost use Rattle.server_steps.specs.Views.{server_of};

use crate::replying::{Replies, make_replies, settle_sessions};
use gcks_core::{Core, CoreOutput, Refusal};
use gd_disk::Disk;
use gd_edges::{Draws, Signer};
use group_model::{List, NoMemory, Output, SentReply};
use pull_sessions::Sessions;
use std::alloc::Global;

/// Closes the batch (RFC 6407 section 4): what waits makes the next epoch, is stored, and is sent; and each session that awaited it has its fourth message.
/// `NeedsReopen`, `Spent`, `NoMemory`, or `DiskFault`; all memory is taken before the disk is called. A join waits exactly where a session awaits the batch.
pub fn close_batch<D: Disk, G: Signer, R: Draws>(
    alloc: Global,
    core: &mut Core<D, G, R>,
    sessions: &mut Sessions,
) -> Result<Output, Refusal>
    requires { JoinsHaveSessions core.old.queue sessions.old.sas }
    ensures serves { (rules : Items Rule) → Serves D.Disk G.Signer R.Draws requests.Batch (answer_batch result)
        (server_of core.old rules sessions.old) (server_of core.new rules sessions.new) }
    ensures sound { JoinsHaveSessions core.new.queue sessions.new.sas }
    ensures fits { IfOk result (λ output. IfSome output.pushes (λ pair. pair.first + 1 < 2 ^ 32)) }
{
    core.prove_at_rest();
    let prepared = core.prepare(alloc)?;
    let replies = match make_replies(alloc, prepared.told(), sessions) {
        Ok(replies) => replies,
        Err(NoMemory) => {
            drop(prepared);
            return Err(Refusal::NoMemory);
        }
    };
    let output = core.commit(prepared)?;
    let Replies { sent, kept } = replies;
    settle_sessions(sessions, kept);
    Ok(put_out(output, sent))
}

/// What a batch puts out, with these replies.
fn put_out(output: CoreOutput, replies: List<SentReply>) -> Output
    ensures { result ≡ record {
      epoch = output.epoch;
      sequence = output.sequence;
      members = output.members;
      wraps = output.wraps;
      pushes = output.pushes;
      replies = replies;
    } }
{
    let CoreOutput {
        epoch,
        sequence,
        members,
        wraps,
        pushes,
        told: _,
    } = output;
    Output {
        epoch,
        sequence,
        members,
        wraps,
        pushes,
        replies,
    }
}
