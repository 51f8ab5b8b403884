//! What the words of the command line ask for.
ghost use Rattle.std.specs.Prelude.{◌≡◌, map, string_bytes, IfSome};
ghost use Rattle.command_words.specs.Commands.{command_of, IsWithin};

use crate::found::Found;

/// How a group is opened.
#[derive(Clone, Copy, PartialEq, Eq)]
pub enum Opening {
    /// A group is made, with a tree of this depth, from 1 to 9.
    New { depth: u8 },
    /// The group of the disk is opened.
    Open,
    /// A group is made, and the script of the soak of this number is run on it.
    Soak { number: u64 },
}

/// What the words of the command line ask for.
#[derive(Clone, Copy, PartialEq, Eq)]
pub struct Command {
    pub opening: Opening,
    /// How far epochs and sequence numbers may go: 1 at least.
    pub limit: u32,
    /// The seed of the draws.
    pub seed: u64,
    /// How many workers share the lines of a block: from 1 to 16.
    pub workers: u8,
}

/// The command that the words ask for, after the name of the program; `None` exactly where they are not of the grammar.
///
/// `--new` with a number from 1 to 9, `--open`, or `--soak` with a number from 0 to 2^64 - 1; and where they are given `--limit` with a number from 1 to
/// 2^32 - 1, `--seed` with a number from 0 to 2^64 - 1 and `--workers` with a number from 1 to 16; in any order and each once at most. A number, of 1 to
/// 20 decimal digits, is the next word, or it is in the same word after an equals sign.
pub fn read_words(words: &[String]) -> Option<Command>
    ensures command { result ≡ command_of (map string_bytes words.now) }
    ensures within { IfSome result IsWithin }
{
    let found = Found::read(words)?;
    found.command()
}
