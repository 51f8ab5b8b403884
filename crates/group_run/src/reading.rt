//! How members read what is on its way to them.
ghost use Rattle.std.specs.Prelude.{◌≡◌, IfOk, OnErr};
ghost use Rattle.group_terms.specs.Names.{Name};
ghost use Rattle.group_peers.specs.Peers.{is_peer};
ghost use Rattle.group_run.specs.Private.Kept.{IsReadable, members_at};
ghost use Rattle.group_run.specs.Private.Reading.{AreReading};
ghost use Rattle.member_steps.specs.Acts.{Ignores};

use crate::unread::Unread;
use group_model::{Answer, Entry, MemberName, NoMemory};
use member_steps::{Came, Members};
use std::alloc::Global;

/// What comes of the first datagram that is not ignored.
#[derive(Drop)]
pub(crate) enum Read {
    /// There is none.
    Nothing,
    /// The member sends the third message of its pull.
    Sends { member: MemberName },
    /// It went missing, or the member took the keys of its fourth message; this is the answer.
    Ended { member: MemberName, answer: Answer },
}

/// Members read what is on its way to them, up to the first datagram that is not ignored. It goes to members.
pub(crate) fn read_mail(
    alloc: Global,
    members: &mut Members,
    unread: &mut Unread,
    entries: &[Entry],
) -> Result<Read, NoMemory>
    requires { IsReadable members.old.all entries.now unread.old }
    ensures reads { IfOk result (λ read. AreReading read (members_at members.old entries.now unread.old) (members_at members.new entries.now unread.new)) }
    ensures err { OnErr result (Ignores (members_at members.old entries.now unread.old) (members_at members.new entries.now unread.new)) }
    ensures readable { IsReadable members.new.all entries.now unread.new }
    ensures peers { (name : Name) → is_peer members.new.all name ≡ is_peer members.old.all name }
{
    while let Some(mail) = unread.next(entries) {
        let came = members.take(alloc, &mail.0, mail.1.as_slice())?;
        unread.taken += 1;
        match came {
            Came::Ignored => {}
            Came::Sends => return Ok(Read::Sends { member: mail.0 }),
            Came::Ended { answer } => {
                let member = mail.0;
                return Ok(Read::Ended { member, answer });
            }
        }
    }
    Ok(Read::Nothing)
}
