//! The lines of rules, of introductions, and of the messages of pulls; of members that lose a datagram, or send theirs again.
ghost use Rattle.std.specs.Prelude.{◌≡◌, ◌++◌, OnOk};
ghost use Rattle.std.specs.List.{flat_map};
ghost use Rattle.script_text.specs.Report.{again_text, introduction_text, lose_text, message_line, reply_line, rule_text, serve_text};

use crate::numbers::append_number;
use crate::pushes::append_octets;
use crate::refusals::append_refusal;
use group_model::{Answer, MemberName, NoMemory, Octets, SentReply};

pub fn append_rule(answer: &Answer, out: &mut Octets) -> Result<(), NoMemory>
    ensures { OnOk result (out.new ≡ out.old ++ rule_text answer.now) }
{
    match answer {
        Answer::RuleNumber { number } => {
            out.extend(b"rule ")?;
            append_number(*number, out)?;
            out.extend(b"\n")
        }
        _ => Ok(()),
    }
}

pub fn append_introduction(
    member: &MemberName,
    answer: &Answer,
    out: &mut Octets,
) -> Result<(), NoMemory>
    ensures { OnOk result (out.new ≡ out.old ++ introduction_text member.now answer.now) }
{
    match answer {
        Answer::Refused { why } => append_refusal(member.text(), why, out),
        _ => Ok(()),
    }
}

pub fn append_serve(member: &MemberName, answer: &Answer, out: &mut Octets) -> Result<(), NoMemory>
    ensures { OnOk result (out.new ≡ out.old ++ serve_text member.now answer.now) }
{
    match answer {
        Answer::Datagram {
            octets,
            names: None,
        } => append_message(b"second", member, octets.as_slice(), out),
        Answer::Datagram {
            octets,
            names: Some(_),
        } => append_message(b"fourth", member, octets.as_slice(), out),
        Answer::Queued => {
            out.extend(member.text())?;
            out.extend(b" queued\n")
        }
        Answer::Refused { why } => append_refusal(member.text(), why, out),
        _ => Ok(()),
    }
}

pub fn append_lose(member: &MemberName, answer: &Answer, out: &mut Octets) -> Result<(), NoMemory>
    ensures { OnOk result (out.new ≡ out.old ++ lose_text member.now answer.now) }
{
    match answer {
        Answer::Done => append_words(member, b" loses next\n", out),
        Answer::Nothing => append_words(member, b" nothing\n", out),
        _ => Ok(()),
    }
}

pub fn append_again(member: &MemberName, answer: &Answer, out: &mut Octets) -> Result<(), NoMemory>
    ensures { OnOk result (out.new ≡ out.old ++ again_text member.now answer.now) }
{
    match answer {
        Answer::Nothing => append_words(member, b" nothing\n", out),
        _ => Ok(()),
    }
}

/// Puts a name and these words after it at the end of a text.
fn append_words(member: &MemberName, words: &[u8], out: &mut Octets) -> Result<(), NoMemory>
    ensures { OnOk result (out.new ≡ out.old ++ (member.now ++ words.now)) }
{
    out.extend(member.text())?;
    out.extend(words)
}

/// Puts a line for each reply at the end of a text.
pub fn append_replies(replies: &[SentReply], out: &mut Octets) -> Result<(), NoMemory>
    ensures { OnOk result (out.new ≡ out.old ++ flat_map reply_line replies.now) }
{
    for reply in replies {
        append_reply(reply, out)?;
    }
    Ok(())
}

fn append_reply(reply: &SentReply, out: &mut Octets) -> Result<(), NoMemory>
    ensures { OnOk result (out.new ≡ out.old ++ reply_line reply.now) }
{
    append_message(
        b"fourth",
        &reply.says.member,
        reply.datagram.as_slice(),
        out,
    )
}

/// Puts the line of a message to a member at the end of a text; `which` is the word for the message.
fn append_message(
    which: &[u8],
    member: &MemberName,
    octets: &[u8],
    out: &mut Octets,
) -> Result<(), NoMemory>
    ensures { OnOk result (out.new ≡ out.old ++ message_line which.now member.now octets.now) }
{
    out.extend(which)?;
    out.extend(b" ")?;
    out.extend(member.text())?;
    append_octets(octets, out)
}
