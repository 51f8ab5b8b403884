//! Several names in a line.
ghost use Rattle.std.specs.Prelude.{◌≡◌};
ghost use Rattle.script_text.specs.Words.{words_of};
ghost use Rattle.script_text.specs.Lines.{members_of};

use crate::words::next_word;
use group_model::{MOST_MEMBERS, MemberName, MemberNames};

/// The 1 to 8 names that the words of a text are; `None` where they are not.
pub fn read_members(text: &[u8]) -> Option<MemberNames>
    ensures { result ≡ members_of (words_of text.now) }
{
    let mut members = MemberNames::new();
    let mut rest = text;
    while let Some((word, behind)) = next_word(rest) {
        if members.names().len() == MOST_MEMBERS {
            return None;
        }
        members.push(MemberName::read(word)?);
        rest = behind;
    }
    if members.names().is_empty() {
        None
    } else {
        Some(members)
    }
}
