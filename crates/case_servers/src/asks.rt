//! What a line asks of a server.

use crate::groups::TestServer;
use crate::shown::{show_done, show_output, show_pair, show_refused, show_served, show_state};
use case_lines::{Text, array, number, octets};
use group_terms::{LkhId, MemberName, Pattern, Phase1, Rule};
use std::alloc::Global;

/// Does what a word asks for with the others.
pub fn ask(
    alloc: Global,
    server: &mut TestServer,
    word: &str,
    rest: &[&str],
    text: &mut Text,
) -> Option<()> {
    match rest {
        [] => ask_alone(alloc, server, word, text),
        [only] => ask_with(alloc, server, word, only, text),
        _ => introduce(server, word, rest, text),
    }
}

/// Does what a word alone asks for.
fn ask_alone(alloc: Global, server: &mut TestServer, word: &str, text: &mut Text) -> Option<()> {
    match word {
        "batch" => batch(alloc, server, text),
        "reopen" => reopen(alloc, server, text),
        "state" => show_state(server, text),
        "halt" => {
            server.halt();
            text.add("halted\n");
        }
        _ => return None,
    }
    Some(())
}

/// Does what a word asks for with another one.
fn ask_with(
    alloc: Global,
    server: &mut TestServer,
    word: &str,
    only: &str,
    text: &mut Text,
) -> Option<()> {
    match word {
        "serve" => serve(alloc, server, only, text),
        "allow" => add_rule(server, true, only, text),
        "deny" => add_rule(server, false, only, text),
        "leave" => leave(server, only, text),
        "leaf" => show_leaf(server, only, text),
        "fill" => fill(server, only, text),
        _ => None,
    }
}

fn serve(alloc: Global, server: &mut TestServer, datagram: &str, text: &mut Text) -> Option<()> {
    let datagram = octets(alloc, datagram)?;
    let served = server.serve(alloc, datagram.as_slice());
    drop(datagram);
    show_served(&served, text);
    drop(served);
    Some(())
}

/// The number of the rule, or that the word is no pattern. `None` where there are as many rules as there may be.
fn add_rule(server: &mut TestServer, allow: bool, pattern: &str, text: &mut Text) -> Option<()> {
    let Some(pattern) = Pattern::read(pattern.as_bytes()) else {
        text.add("no pattern\n");
        return Some(());
    };
    if server.rule_count() == u32::MAX {
        return None;
    }
    let number = server.add_rule(Rule { allow, pattern }).ok()?;
    text.add_named("rule ", u64::from(number));
    text.add("\n");
    Some(())
}

fn introduce(server: &mut TestServer, word: &str, words: &[&str], text: &mut Text) -> Option<()> {
    if word != "introduce" {
        return None;
    }
    let phase = phase(words)?;
    show_done(server.introduce(phase), "introduced\n", text);
    Some(())
}

/// A phase 1 SA: its member, and octets.
pub fn phase(words: &[&str]) -> Option<Phase1> {
    let [name, cookies, skeyid_a, key, last] = words else {
        return None;
    };
    Some(Phase1 {
        member: MemberName::read(name.as_bytes())?,
        cookies: array(cookies)?,
        skeyid_a: array(skeyid_a)?,
        key: array(key)?,
        last: array(last)?,
    })
}

/// Introduces SAs of the first numbers.
fn fill(server: &mut TestServer, count: &str, text: &mut Text) -> Option<()> {
    for i in 0..number(count)? {
        server.introduce(numbered(i)).ok()?;
    }
    text.add("introduced\n");
    Some(())
}

/// An SA of this number: cookies and a member of its own, and keys that all have.
fn numbered(i: u32) -> Phase1 {
    let mut cookies = [1; 16];
    cookies[4..8].copy_from_slice(&i.to_be_bytes());
    Phase1 {
        member: name(i),
        cookies,
        skeyid_a: [2; 32],
        key: [3; 16],
        last: [4; 16],
    }
}

/// A name for a number: its digits to the base 16, as letters.
fn name(i: u32) -> MemberName {
    let mut text = [b'a'; 8];
    let mut left = i;
    for octet in text.iter_mut() {
        *octet = b'a' + (left % 16) as u8;
        left /= 16;
    }
    MemberName::read(&text).unwrap_or_default()
}

fn leave(server: &mut TestServer, name: &str, text: &mut Text) -> Option<()> {
    let name = MemberName::read(name.as_bytes())?;
    show_done(server.leave(&name), "leaving\n", text);
    Some(())
}

fn batch(alloc: Global, server: &mut TestServer, text: &mut Text) {
    match server.batch(alloc) {
        Ok(output) => {
            show_output(&output, text);
            drop(output);
        }
        Err(why) => show_refused(why, text),
    }
}

fn reopen(alloc: Global, server: &mut TestServer, text: &mut Text) {
    match server.reopen(alloc) {
        Ok(resent) => {
            text.add("reopened\n");
            show_pair(&resent, text);
            drop(resent);
        }
        Err(why) => show_refused(why, text),
    }
}

/// Who has a leaf.
fn show_leaf(server: &TestServer, number: &str, text: &mut Text) -> Option<()> {
    let leaf = LkhId::new(number.parse::<u16>().ok()?)?;
    match server.member_at(leaf) {
        Some(member) => text.add_letters(member.text()),
        None => text.add("nobody"),
    }
    text.add("\n");
    Some(())
}
