//! The lines of what members' stores answer.
ghost use Rattle.std.specs.Prelude.{◌≡◌, [], ◌∷◌, ◌++◌, OnOk, codes};
ghost use Rattle.hex.specs.Hex.{encode_lower};
ghost use Rattle.std.specs.Fmt.{decimal};
ghost use Rattle.script_text.specs.Report.{line_with, keep_text, deliver_text, deliver_all_text, fingerprint_text};

use crate::numbers::append_number;
use crate::pushes::{append_hex, append_push_refusal};
use crate::refusals::append_refusal;
use group_model::{Answer, MemberName, NoMemory, Octets};

pub fn append_keep(member: &MemberName, answer: &Answer, out: &mut Octets) -> Result<(), NoMemory>
    ensures { OnOk result (out.new ≡ out.old ++ keep_text member.now answer.now) }
{
    match answer {
        Answer::Kept { epoch } => {
            out.extend(member.text())?;
            out.extend(b" keyed ")?;
            append_number(*epoch, out)?;
            out.extend(b"\n")
        }
        Answer::Lost => {
            out.extend(member.text())?;
            out.extend(b" lost\n")
        }
        Answer::Older { last, got } => {
            out.extend(member.text())?;
            out.extend(b" older ")?;
            append_number(*last, out)?;
            out.extend(b" ")?;
            append_number(*got, out)?;
            out.extend(b"\n")
        }
        _ => Ok(()),
    }
}

pub fn append_deliver(
    member: &MemberName,
    sequence: u32,
    answer: &Answer,
    out: &mut Octets,
) -> Result<(), NoMemory>
    ensures { OnOk result (out.new ≡ out.old ++ deliver_text member.now sequence answer.now) }
{
    match answer {
        Answer::TookRoot { epoch } => {
            append_delivered(member, sequence, out)?;
            append_taken(b"root", *epoch, out)
        }
        Answer::TookTraffic { epoch } => {
            append_delivered(member, sequence, out)?;
            append_taken(b"traffic", *epoch, out)
        }
        Answer::PushRefused { why } => {
            append_delivered(member, sequence, out)?;
            out.extend(b" refused ")?;
            append_push_refusal(why, out)?;
            out.extend(b"\n")
        }
        Answer::Nothing => {
            append_delivered(member, sequence, out)?;
            out.extend(b" nothing\n")
        }
        _ => Ok(()),
    }
}

/// Puts the beginning of the line at the end of a text: whom a push of this number is given to.
fn append_delivered(member: &MemberName, sequence: u32, out: &mut Octets) -> Result<(), NoMemory>
    ensures { OnOk result (out.new ≡ out.old ++ (member.now ++ (codes " push " ++ decimal sequence))) }
{
    out.extend(member.text())?;
    out.extend(b" push ")?;
    append_number(sequence, out)
}

/// Puts the end of the line of a push that was taken at the end of a text: which key of which epoch it gave.
fn append_taken(key: &[u8], epoch: u32, out: &mut Octets) -> Result<(), NoMemory>
    ensures { OnOk result (out.new ≡ out.old ++ 32 ∷ line_with (codes "taken" ∷ key.now ∷ decimal epoch ∷ [])) }
{
    out.extend(b" taken ")?;
    out.extend(key)?;
    out.extend(b" ")?;
    append_number(epoch, out)?;
    out.extend(b"\n")
}

pub fn append_deliver_all(answer: &Answer, out: &mut Octets) -> Result<(), NoMemory>
    ensures { OnOk result (out.new ≡ out.old ++ deliver_all_text answer.now) }
{
    match answer {
        Answer::Refused { why } => append_refusal(b"deliver-all", why, out),
        _ => Ok(()),
    }
}

pub fn append_fingerprint(
    member: &MemberName,
    answer: &Answer,
    out: &mut Octets,
) -> Result<(), NoMemory>
    ensures { OnOk result (out.new ≡ out.old ++ fingerprint_text member.now answer.now) }
{
    match answer {
        Answer::KeyIs {
            epoch,
            sequence,
            print,
        } => {
            out.extend(member.text())?;
            out.extend(b" key ")?;
            append_number(*epoch, out)?;
            append_print(*sequence, print, out)
        }
        Answer::Nothing => {
            out.extend(member.text())?;
            out.extend(b" nothing\n")
        }
        _ => Ok(()),
    }
}

/// Puts the end of the line of a key at the end of a text.
fn append_print(sequence: u32, print: &[u8; 8], out: &mut Octets) -> Result<(), NoMemory>
    ensures { OnOk result (out.new ≡ out.old ++ 32 ∷ line_with (codes "sequence" ∷ decimal sequence ∷ encode_lower print.now ∷ [])) }
{
    out.extend(b" sequence ")?;
    append_number(sequence, out)?;
    out.extend(b" ")?;
    append_hex(print.as_slice(), out)?;
    out.extend(b"\n")
}
