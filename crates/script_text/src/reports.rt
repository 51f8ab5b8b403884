//! The lines that report an entry.
ghost use Rattle.std.specs.Prelude.{◌≡◌, ◌++◌, OnOk, OnErr};
ghost use Rattle.script_text.specs.Report.{entry_text, answer_text};

use crate::blocks::{append_now, append_together, append_together2};
use crate::changes::{append_batch, append_leave};
use crate::derivations::append_derive;
use crate::messages::{append_again, append_introduction, append_lose, append_rule, append_serve};
use crate::openings::{append_begin, append_create, append_halt, append_reopen};
use crate::seen::append_show;
use crate::stores::{append_deliver, append_deliver_all, append_fingerprint, append_keep};
use crate::texts::append_text;
use group_model::{Answer, Asked, Entry, List, NoMemory, Octets};
use std::alloc::Global;

/// Puts the lines that report an entry at the end of a text. Out of memory for that, the text stays as it was.
#[tactic(auto, unfolding(crate::specs::Report::entry_text))]
pub fn report_entry(alloc: Global, entry: &Entry, out: &mut Octets) -> Result<(), NoMemory>
    ensures ok { OnOk result (out.new ≡ out.old ++ entry_text entry.now) }
    ensures err { OnErr result (out.new ≡ out.old) }
{
    let mut text = List::new(alloc);
    append_answer(&entry.asked, &entry.answer, &mut text)?;
    append_text(text, out)
}

fn append_answer(asked: &Asked, answer: &Answer, out: &mut Octets) -> Result<(), NoMemory>
    ensures { OnOk result (out.new ≡ out.old ++ answer_text asked.now answer.now) }
{
    match asked {
        Asked::Create { depth } => append_create(*depth, answer, out),
        Asked::Begin => append_begin(answer, out),
        Asked::AddRule { .. } => append_rule(answer, out),
        Asked::Introduce { phase } => append_introduction(&phase.member, answer, out),
        Asked::Serve { member, .. } => append_serve(member, answer, out),
        Asked::Leave { member } => append_leave(member, answer, out),
        Asked::Batch => append_batch(answer, out),
        Asked::Halt => append_halt(answer, out),
        Asked::Reopen => append_reopen(answer, out),
        Asked::Show => append_show(answer, out),
        Asked::Lose { member } => append_lose(member, answer, out),
        Asked::Again { member } => append_again(member, answer, out),
        Asked::Keep { member } => append_keep(member, answer, out),
        Asked::Deliver { member, sequence } => append_deliver(member, *sequence, answer, out),
        Asked::DeliverAll => append_deliver_all(answer, out),
        Asked::Key { member } => append_fingerprint(member, answer, out),
        Asked::Derive { epoch, members } => append_derive(*epoch, members, answer, out),
        Asked::Now => append_now(answer, out),
        Asked::Together { lines } => append_together(*lines, answer, out),
        Asked::Together2 => append_together2(answer, out),
    }
}
