//! What a group is asked that is open.

use crate::groups::TestCore;
use crate::groups::cores::{close_batch, join};
use crate::groups::shows::{
    add_keyed, add_member, add_opened, add_output, add_refused, look, show, state,
};
use case_lines::Text;
use gcks_core::{MemberName, Refusal};
use std::alloc::Global;

/// What a word asks, alone or of a name.
pub fn ask(
    alloc: Global,
    core: &mut TestCore,
    word: &str,
    rest: &[&str],
    text: &mut Text,
) -> Option<()> {
    match rest {
        [] => call(alloc, core, word, text),
        [name] => ask_of(core, word, &MemberName::read(name.as_bytes())?, text),
        _ => None,
    }
}

fn call(alloc: Global, core: &mut TestCore, word: &str, text: &mut Text) -> Option<()> {
    match word {
        "batch" => batch(alloc, core, text),
        "reopen" => reopen(alloc, core, text),
        "halt" => halt(core, text),
        "show" => show(core, text),
        "state" => state(core, text),
        "draw" => draw(core, text),
        _ => return None,
    }
    Some(())
}

fn ask_of(core: &mut TestCore, word: &str, member: &MemberName, text: &mut Text) -> Option<()> {
    match word {
        "join" => add_joined(member, join(core, member), text),
        "leave" => add_left(member, core.leave(member), text),
        "reply" => reply(core, member, text),
        "look" => look(core, member, text),
        _ => return None,
    }
    Some(())
}

fn add_joined(member: &MemberName, joined: Result<bool, Refusal>, text: &mut Text) {
    match joined {
        Ok(true) => add_member(member, " queued", text),
        Ok(false) => add_member(member, " nothing", text),
        Err(why) => add_why(member, why, text),
    }
}

fn add_left(member: &MemberName, left: Result<(), Refusal>, text: &mut Text) {
    match left {
        Ok(()) => add_member(member, " leaving", text),
        Err(why) => add_why(member, why, text),
    }
}

fn add_why(member: &MemberName, why: Refusal, text: &mut Text) {
    add_member(member, " ", text);
    add_refused(why, text);
}

fn reply(core: &TestCore, member: &MemberName, text: &mut Text) {
    if !core.is_member(member) {
        return add_member(member, " stranger", text);
    }
    match core.reply(member) {
        Ok(keyed) => {
            add_keyed(member, &keyed, text);
            drop(keyed);
        }
        Err(why) => add_why(member, why, text),
    }
}

fn batch(alloc: Global, core: &mut TestCore, text: &mut Text) {
    match close_batch(alloc, core) {
        Ok(output) => {
            add_output(&output, text);
            drop(output);
        }
        Err(why) => add_refused(why, text),
    }
}

fn reopen(alloc: Global, core: &mut TestCore, text: &mut Text) {
    match core.reopen(alloc) {
        Ok(resent) => {
            add_opened(core, &resent, text);
            drop(resent);
        }
        Err(why) => add_refused(why, text),
    }
}

fn halt(core: &mut TestCore, text: &mut Text) {
    core.halt();
    text.add("halted");
}

fn draw(core: &mut TestCore, text: &mut Text) {
    text.add("drew");
    text.add_octets(&[&core.draw()]);
}
