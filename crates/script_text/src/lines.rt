//! What a line of a script says.
ghost use Rattle.std.specs.Prelude.{◌≡◌};
ghost use Rattle.script_text.specs.Words.{words_of};
ghost use Rattle.script_text.specs.Lines.{line_of, command_of, command_with, command_with_more, deliver_of, derive_of, lone_command};

use crate::members::read_members;
use crate::numbers::read_number;
use crate::words::{next_word, only_word};
use group_model::{MemberName, MemberNames};
use group_terms::Pattern;

/// How many octets a line has at the most.
pub const MOST_LINE_OCTETS: usize = 200;

/// What a line of a script says.
#[derive(Drop)]
pub enum Line {
    /// A comment, or a line without words.
    Nothing,
    /// Who may join is judged by one more rule, which allows names that match.
    Allow { pattern: Pattern },
    /// Who may join is judged by one more rule, which denies names that match.
    Deny { pattern: Pattern },
    /// A member begins a pull; its phase 1 SA is made at its first use, and introduced where it was not.
    Join { member: MemberName },
    /// A member sends its last datagram once more.
    Again { member: MemberName },
    /// The next datagram to a member goes missing.
    Lose { member: MemberName },
    /// A member asks to go out.
    Leave { member: MemberName },
    /// The pending changes are to make the next epoch.
    Batch,
    /// A member is given the push of this number.
    Deliver { member: MemberName, sequence: u32 },
    /// Each present member is given each push that is new to it.
    DeliverAll,
    /// Which traffic key a member has.
    Key { member: MemberName },
    /// Whether these members derive the traffic key of an epoch.
    Derive { epoch: u32, members: MemberNames },
    /// Until it is opened again the group is not changed, not shown, and gives no pushes to all members. `deliver`, `key` and `derive` go on.
    Halt,
    /// It is opened again, from the journal that it has.
    Reopen,
    /// Who has which leaf.
    Show,
    /// The last epoch and sequence number that were published, without a turn.
    Now,
    /// A block begins, whose lines workers run side by side.
    Together,
    /// The block ends.
    End,
}

/// What a line says, without its end of line; `None` where it is none of the grammar.
///
/// Spaces alone part words, so that a tab or a carriage return is an octet of one. A line is `allow PATTERN`, `deny PATTERN`, `join NAME`, `again NAME`,
/// `lose NAME`, `leave NAME`, `batch`, `deliver NAME NUMBER`, `deliver-all`, `key NAME`, `derive NUMBER NAME..` with 1 to 8 names, `halt`, `reopen`,
/// `show`, `now`, `together` or `end`; or it has no word, or one that begins with `#` first, and says nothing.
#[tactic(auto, unfolding(crate::specs::Lines::line_of))]
pub fn read_line(text: &[u8]) -> Option<Line>
    ensures { result ≡ line_of text.now }
{
    if text.len() > MOST_LINE_OCTETS {
        return None;
    }
    let Some((command, behind)) = next_word(text) else {
        return Some(Line::Nothing);
    };
    if command.starts_with(b"#") {
        return Some(Line::Nothing);
    }
    read_command(command, behind)
}

fn read_command(command: &[u8], behind: &[u8]) -> Option<Line>
    ensures { result ≡ command_of command.now (words_of behind.now) }
{
    let Some((first, behind)) = next_word(behind) else {
        return read_lone_command(command);
    };
    match next_word(behind) {
        None => read_command_with(command, first),
        Some(_) => read_command_with_more(command, first, behind),
    }
}

fn read_lone_command(command: &[u8]) -> Option<Line>
    ensures { result ≡ lone_command command.now }
{
    if command == b"batch".as_slice() {
        Some(Line::Batch)
    } else if command == b"deliver-all".as_slice() {
        Some(Line::DeliverAll)
    } else if command == b"halt".as_slice() {
        Some(Line::Halt)
    } else if command == b"reopen".as_slice() {
        Some(Line::Reopen)
    } else if command == b"show".as_slice() {
        Some(Line::Show)
    } else if command == b"now".as_slice() {
        Some(Line::Now)
    } else if command == b"together".as_slice() {
        Some(Line::Together)
    } else if command == b"end".as_slice() {
        Some(Line::End)
    } else {
        None
    }
}

fn read_command_with(command: &[u8], name: &[u8]) -> Option<Line>
    ensures { result ≡ command_with command.now name.now }
{
    if command == b"allow".as_slice() {
        let pattern = Pattern::read(name)?;
        Some(Line::Allow { pattern })
    } else if command == b"deny".as_slice() {
        let pattern = Pattern::read(name)?;
        Some(Line::Deny { pattern })
    } else if command == b"join".as_slice() {
        let member = MemberName::read(name)?;
        Some(Line::Join { member })
    } else if command == b"again".as_slice() {
        let member = MemberName::read(name)?;
        Some(Line::Again { member })
    } else if command == b"lose".as_slice() {
        let member = MemberName::read(name)?;
        Some(Line::Lose { member })
    } else if command == b"leave".as_slice() {
        let member = MemberName::read(name)?;
        Some(Line::Leave { member })
    } else if command == b"key".as_slice() {
        let member = MemberName::read(name)?;
        Some(Line::Key { member })
    } else {
        None
    }
}

fn read_command_with_more(command: &[u8], first: &[u8], behind: &[u8]) -> Option<Line>
    ensures { result ≡ command_with_more command.now first.now (words_of behind.now) }
{
    if command == b"deliver".as_slice() {
        read_deliver(first, behind)
    } else if command == b"derive".as_slice() {
        read_derive(first, behind)
    } else {
        None
    }
}

fn read_deliver(name: &[u8], numbers: &[u8]) -> Option<Line>
    ensures { result ≡ deliver_of name.now (words_of numbers.now) }
{
    let member = MemberName::read(name)?;
    let number = only_word(numbers)?;
    let sequence = read_number(number)?;
    Some(Line::Deliver { member, sequence })
}

fn read_derive(number: &[u8], names: &[u8]) -> Option<Line>
    ensures { result ≡ derive_of number.now (words_of names.now) }
{
    let epoch = read_number(number)?;
    let members = read_members(names)?;
    Some(Line::Derive { epoch, members })
}
