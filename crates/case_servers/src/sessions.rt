//! The sessions of one SA by themselves, with policies and a nonce that a line gives.
ghost use Rattle.std.specs.Prelude.{IfSome, IsSome};
ghost use Rattle.pull_sessions.specs.Builds.{IsFirstFrom, IsThirdFrom};

use crate::asks::phase;
use case_lines::{Text, array, number, octets};
use group_terms::{MemberName, Octets, SignKind};
use pull_sessions::{
    First, Kept, LookedAt, Nonce, SaPolicy, SessionRefusal, Sessions, Third,
    what_is_found_can_be_held,
};
use sa_wire::{KekPolicy, TekPolicy};
use std::alloc::Global;

/// What second messages are made of.
#[derive(Clone, Copy)]
struct Given {
    kek: KekPolicy,
    tek: TekPolicy,
    nr: Nonce,
}

/// Introduces an SA where there is room for so many, and goes through its datagrams: a line for each message that is made, and then what is held of
/// the member.
pub fn ask(alloc: Global, words: &[&str], text: &mut Text) -> Option<()> {
    let (limit, words) = words.split_first()?;
    let (sa, words) = words.split_at_checked(5)?;
    let (given, datagrams) = words.split_at_checked(5)?;
    let (phase, given) = (phase(sa)?, read_given(given)?);
    let mut sessions = Sessions::new(alloc, number(limit)?);
    let asked = match sessions.introduce(phase) {
        Ok(()) => go_through(&mut sessions, alloc, &phase.member, &given, datagrams, text),
        Err(SessionRefusal::PhaseFull { held }) => {
            text.add_named("refused phase-full ", u64::from(held));
            text.add("\n");
            Some(())
        }
        Err(_) => None,
    };
    drop(sessions);
    asked
}

/// Both policies, and a nonce of 16 octets.
fn read_given(words: &[&str]) -> Option<Given> {
    let [kek, algorithm, bits, tek, nr] = words else {
        return None;
    };
    let sign = SignKind {
        algorithm: algorithm.parse::<u16>().ok()?,
        key_bits: bits.parse::<u16>().ok()?,
    };
    Some(Given {
        kek: KekPolicy {
            spi: array(kek)?,
            sign,
        },
        tek: TekPolicy { spi: array(tek)? },
        nr: Nonce::read(&array::<16>(nr)?)?,
    })
}

/// Each datagram is a word that says what to do with it, and its octets.
fn go_through(
    sessions: &mut Sessions,
    alloc: Global,
    member: &MemberName,
    given: &Given,
    words: &[&str],
    text: &mut Text,
) -> Option<()> {
    for pair in words.chunks(2) {
        let [word, datagram] = pair else {
            return None;
        };
        let datagram = octets(alloc, datagram)?;
        let done = take(sessions, alloc, word, datagram.as_slice(), given, text);
        drop(datagram);
        done?;
        show_held(sessions.held_third(member), text);
    }
    Some(())
}

fn take(
    sessions: &mut Sessions,
    alloc: Global,
    word: &str,
    datagram: &[u8],
    given: &Given,
    text: &mut Text,
) -> Option<()> {
    match word {
        "begin" => {
            let policy = SaPolicy {
                kek: Some(given.kek),
                tek: Some(given.tek),
            };
            begin(sessions, alloc, datagram, given.nr, &policy, text)
        }
        "queue" => queue(sessions, alloc, datagram),
        _ => None,
    }
}

/// Answers a first message with this nonce and these policies.
fn begin(
    sessions: &mut Sessions,
    alloc: Global,
    datagram: &[u8],
    nr: Nonce,
    policy: &SaPolicy,
    text: &mut Text,
) -> Option<()>
    requires kek { IsSome policy.now.kek }
    requires tek { IsSome policy.now.tek }
{
    let (member, first) = found_first(sessions, alloc, datagram)?;
    let last = Octets::copy_of(alloc, datagram).ok()?;
    let Ok(second) = sessions.build_second(alloc, &member, &first, &nr, policy) else {
        return None;
    };
    text.add_message("second ", second.as_slice());
    let kept = Kept::Datagram {
        octets: second,
        names: None,
    };
    sessions.hold_first(&member, first, nr, last, kept);
    Some(())
}

/// Has the member of a third message wait for the next batch.
fn queue(sessions: &mut Sessions, alloc: Global, datagram: &[u8]) -> Option<()> {
    let (member, third) = found_third(sessions, alloc, datagram)?;
    let last = Octets::copy_of(alloc, datagram).ok()?;
    sessions.hold_third(&member, third, last, Kept::Queued);
    Some(())
}

/// The first message that a datagram is, and whose.
fn found_first(sessions: &Sessions, alloc: Global, datagram: &[u8]) -> Option<(MemberName, First)>
    ensures { IfSome result (λ found. IsFirstFrom sessions.now.sas found.0 datagram.now found.1) }
{
    sessions.prove_sound();
    what_is_found_can_be_held();
    let Ok(looked) = sessions.look(alloc, datagram) else {
        return None;
    };
    let member = looked.member;
    match looked.what {
        LookedAt::NewFirst { first } => Some((member, first)),
        _ => None,
    }
}

/// The third message that a datagram is, and whose.
fn found_third(sessions: &Sessions, alloc: Global, datagram: &[u8]) -> Option<(MemberName, Third)>
    ensures { IfSome result (λ found. IsThirdFrom sessions.now.sas found.0 datagram.now found.1) }
{
    sessions.prove_sound();
    what_is_found_can_be_held();
    let Ok(looked) = sessions.look(alloc, datagram) else {
        return None;
    };
    let member = looked.member;
    match looked.what {
        LookedAt::NextThird { third } => Some((member, third)),
        _ => None,
    }
}

/// `held IV`: the IV of the message that answers the third message of a member that waits; `held -` where there is none.
fn show_held(held: Option<Third>, text: &mut Text) {
    text.add("held ");
    match held {
        Some(third) => text.add_hex(&third.next_iv),
        None => text.add("-"),
    }
    text.add("\n");
}
