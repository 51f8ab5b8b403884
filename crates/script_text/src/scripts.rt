//! Lines of a script, written, and the script of the soak.
ghost use Rattle.std.specs.Prelude.{◌≡◌, ◌∷◌, ◌++◌, IfOk, OnOk};
ghost use Rattle.script_text.specs.Soak.{soak_script};
ghost use Rattle.script_text.specs.Written.{ended_line, line_text};
ghost use Rattle.script_text.specs.declared.lines.Line.TheVariants as lines;

use crate::derivations::append_names;
use crate::lines::Line;
use crate::numbers::append_number;
use crate::soaks::Soak;
use group_model::{List, MemberName, MemberNames, NoMemory, Octets};
use std::alloc::Global;

/// The script of the soak of a number, as octets: its lines, each with its line end.
#[tactic(auto, unfolding(crate::specs::Soak::soak_script))]
pub fn soak_script(alloc: Global, number: u64) -> Result<Octets, NoMemory>
    ensures { IfOk result (λ script. script ≡ soak_script number) }
{
    let mut soak = Soak::new(number);
    let mut script = List::new(alloc);
    while let Some(line) = soak.next_line() {
        append_ended(&line, &mut script)?;
    }
    Ok(script)
}

/// Puts a line and its line end at the end of a text.
fn append_ended(line: &Line, out: &mut Octets) -> Result<(), NoMemory>
    ensures { OnOk result (out.new ≡ out.old ++ ended_line line.now) }
{
    append_line(line, out)?;
    out.extend(b"\n")
}

/// Puts a line at the end of a text.
fn append_line(line: &Line, out: &mut Octets) -> Result<(), NoMemory>
    ensures { OnOk result (out.new ≡ out.old ++ line_text line.now) }
{
    match line {
        Line::Nothing => Ok(()),
        Line::Allow { pattern } => append_command(b"allow", pattern.text(), out),
        Line::Deny { pattern } => append_command(b"deny", pattern.text(), out),
        Line::Join { member } => append_command(b"join", member.text(), out),
        Line::Again { member } => append_command(b"again", member.text(), out),
        Line::Lose { member } => append_command(b"lose", member.text(), out),
        Line::Leave { member } => append_command(b"leave", member.text(), out),
        Line::Batch => out.extend(b"batch"),
        Line::Deliver { member, sequence } => append_delivery(member, *sequence, out),
        Line::DeliverAll => out.extend(b"deliver-all"),
        Line::Key { member } => append_command(b"key", member.text(), out),
        Line::Derive { epoch, members } => append_derivation(*epoch, members, out),
        Line::Halt => out.extend(b"halt"),
        Line::Reopen => out.extend(b"reopen"),
        Line::Show => out.extend(b"show"),
        Line::Now => out.extend(b"now"),
        Line::Together => out.extend(b"together"),
        Line::End => out.extend(b"end"),
    }
}

/// Puts a command and its argument at the end of a text.
fn append_command(command: &[u8], argument: &[u8], out: &mut Octets) -> Result<(), NoMemory>
    ensures { OnOk result (out.new ≡ out.old ++ (command.now ++ 32 ∷ argument.now)) }
{
    out.extend(command)?;
    out.extend(b" ")?;
    out.extend(argument)
}

fn append_delivery(member: &MemberName, sequence: u32, out: &mut Octets) -> Result<(), NoMemory>
    ensures { OnOk result (out.new ≡ out.old ++ line_text (lines.Deliver member.now sequence)) }
{
    append_command(b"deliver", member.text(), out)?;
    out.extend(b" ")?;
    append_number(sequence, out)
}

fn append_derivation(epoch: u32, members: &MemberNames, out: &mut Octets) -> Result<(), NoMemory>
    ensures { OnOk result (out.new ≡ out.old ++ line_text (lines.Derive epoch members.now)) }
{
    out.extend(b"derive ")?;
    append_number(epoch, out)?;
    append_names(members.names(), out)
}
