//! What a server answers, in lines of text.

use crate::groups::TestServer;
use case_lines::Text;
use group_model::{Counter, KeyName, Output, PushPair, Refusal, SentReply, SymReply, Wrap};
use group_server::Reply;

/// `second LENGTH OCTETS`, `fourth LENGTH OCTETS` and what it says by key names, `queued`, or why not.
pub fn show_served(served: &Result<Reply, Refusal>, text: &mut Text) {
    match served {
        Ok(
            Reply::Datagram {
                octets,
                names: None,
            },
        ) => { text.add_message("second ", octets.as_slice()) }
        Ok(
            Reply::Datagram {
                octets,
                names: Some(says),
            },
        ) => show_fourth(octets.as_slice(), says, text),
        Ok(Reply::Queued) => text.add("queued\n"),
        Err(why) => show_refused(*why, text),
    }
}

/// A fourth message, and `keys NAME EPOCH SEQUENCE KEY ..`.
fn show_fourth(octets: &[u8], says: &SymReply, text: &mut Text) {
    text.add_message("fourth ", octets);
    text.add("keys ");
    text.add_letters(says.member.text());
    text.add_named(" ", u64::from(says.keyed_epoch));
    text.add_named(" ", u64::from(says.sequence));
    show_names(says.names.as_slice(), text);
    text.add("\n");
}

fn show_names(names: &[KeyName], text: &mut Text) {
    for name in names {
        show_name(*name, text);
    }
}

/// `POSITION.EPOCH`, `traffic.EPOCH`, or `phase`, which no message gives.
fn show_name(name: KeyName, text: &mut Text) {
    match name {
        KeyName::Node { id, made } => {
            text.add_named(" ", u64::from(id.number()));
            text.add_named(".", u64::from(made));
        }
        KeyName::Traffic { made } => text.add_named(" traffic.", u64::from(made)),
        KeyName::Phase { .. } => text.add(" phase"),
    }
}

/// What a batch put out.
pub fn show_output(output: &Output, text: &mut Text) {
    text.add_named("epoch ", u64::from(output.epoch));
    text.add_named(" sequence ", u64::from(output.sequence));
    text.add_named(" members ", u64::from(output.members));
    text.add("\n");
    show_wraps(output.wraps.as_slice(), text);
    show_pair(&output.pushes, text);
    show_replies(output.replies.as_slice(), text);
}

fn show_wraps(wraps: &[Wrap], text: &mut Text) {
    for wrap in wraps {
        text.add("wrap");
        show_name(wrap.by, text);
        show_name(wrap.gives, text);
        text.add("\n");
    }
}

fn show_replies(replies: &[SentReply], text: &mut Text) {
    for reply in replies {
        show_fourth(reply.datagram.as_slice(), &reply.says, text);
    }
}

/// The pair of a batch, if it sent one.
pub fn show_pair(pair: &Option<PushPair>, text: &mut Text) {
    if let Some(pair) = pair {
        let first = u64::from(pair.first);
        show_push(first, pair.membership.as_slice(), text);
        show_push(first + 1, pair.traffic.as_slice(), text);
    }
}

fn show_push(number: u64, datagram: &[u8], text: &mut Text) {
    text.add_named("push ", number);
    text.add_message(" ", datagram);
}

/// How the server is: the depth of its tree, the place of its draws, and what it counts.
pub fn show_state(server: &TestServer, text: &mut Text) {
    text.add_named("depth ", u64::from(server.depth()));
    text.add_named(" draws ", server.draws_at());
    text.add_named(" epoch ", u64::from(server.epoch()));
    text.add_named(" sequence ", u64::from(server.sequence()));
    text.add_named(" members ", u64::from(server.members()));
    text.add(if server.needs_reopen() {
        " needs-reopen\n"
    } else {
        "\n"
    });
}

/// What was done, or why not.
pub fn show_done(done: Result<(), Refusal>, what: &str, text: &mut Text) {
    match done {
        Ok(()) => text.add(what),
        Err(why) => show_refused(why, text),
    }
}

/// Why something is refused.
pub fn show_refused(why: Refusal, text: &mut Text) {
    text.add("refused ");
    text.add(reason(why));
    match why {
        Refusal::Malformed { message, at } => {
            text.add_named(" ", u64::from(message));
            text.add_named(" ", u64::from(at));
        }
        Refusal::BadHash { carried, expected } => {
            text.add(" ");
            text.add_hex(&carried);
            text.add(" ");
            text.add_hex(&expected);
        }
        _ => show_number(why, text),
    }
    text.add("\n");
}

fn show_number(why: Refusal, text: &mut Text) {
    if let Some(number) = number_of(why) {
        text.add_named(" ", number);
    }
}

fn number_of(why: Refusal) -> Option<u64> {
    match why {
        Refusal::Denied { rule } => Some(u64::from(rule)),
        Refusal::TreeFull { held } | Refusal::PhaseFull { held } => Some(u64::from(held)),
        Refusal::BatchFull { pending } => Some(u64::from(pending)),
        Refusal::Spent { at, .. } => Some(u64::from(at)),
        Refusal::NotAJournal { at } => Some(at),
        _ => None,
    }
}

fn reason(why: Refusal) -> &'static str {
    match why {
        Refusal::NeedsReopen => "needs-reopen",
        Refusal::Malformed { .. } => "malformed",
        Refusal::UnknownPeer => "unknown-peer",
        Refusal::WrongStep => "wrong-step",
        Refusal::BadHash { .. } => "bad-hash",
        Refusal::WrongGroup => "wrong-group",
        Refusal::Denied { .. } => "denied",
        Refusal::NotMember => "not-member",
        Refusal::AlreadyPending => "already-pending",
        Refusal::TreeFull { .. } => "tree-full",
        Refusal::BatchFull { .. } => "batch-full",
        Refusal::Spent {
            counter: Counter::Epoch,
            ..
        } => "spent epoch",
        Refusal::Spent { .. } => "spent sequence",
        Refusal::DiskFault => "disk-fault",
        Refusal::PhaseTaken => "phase-taken",
        Refusal::PhaseFull { .. } => "phase-full",
        Refusal::NotAJournal { .. } => "not-a-journal",
        Refusal::NoMemory => "no-memory",
    }
}
