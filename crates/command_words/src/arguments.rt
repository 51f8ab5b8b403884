//! Arguments, in one word or in two.
ghost use Rattle.std.specs.Prelude.{◌≡◌, ◌≤◌, ◌<◌, ◌∷◌, length, map, position, string_bytes, IfSome, MatchOption, Some, None};
ghost use Rattle.command_words.specs.Arguments.{argument_in, argument_with, arguments_of, followed_by, is_equals_sign, lone_argument};
ghost use Rattle.command_words.specs.Private.Found.{IsAllowed};

use crate::commands::Opening;
use crate::numbers::read_between;

/// The greatest depth of the tree of a group that is made.
pub(crate) const MOST_DEPTH: u64 = 9;

/// The greatest limit.
pub(crate) const MOST_LIMIT: u64 = (1 << 32) - 1;

/// The greatest number of workers.
pub(crate) const MOST_WORKERS: u64 = 16;

/// One argument of the command line.
#[derive(Clone, Copy)]
pub(crate) enum Argument {
    /// How a group is opened.
    Opens(Opening),
    /// How far epochs and sequence numbers may go.
    Limit(u32),
    /// The seed of the draws.
    Seed(u64),
    /// How many workers share the lines of a block.
    Workers(u8),
}

/// The argument that begins with this word, and the words after it; `None` where there is none.
pub(crate) fn next_argument<'a>(
    word: &[u8],
    after: &'a [String],
) -> Option<(Argument, &'a [String])>
    ensures argument { MatchOption result (arguments_of (word.now ∷ map string_bytes after.now) ≡ None)
        (λ next. arguments_of (word.now ∷ map string_bytes after.now)
        ≡ followed_by (Some next.0) (arguments_of (map string_bytes next.1.now))) }
    ensures goes { IfSome result (λ next. length next.1.now ≤ length after.now) }
    ensures allowed { IfSome result (λ next. IsAllowed next.0) }
{
    if let Some(argument) = read_argument_in(word) {
        return Some((argument, after));
    }
    let (number, after) = after.split_first()?;
    let argument = read_argument_with(word, number.as_bytes())?;
    Some((argument, after))
}

fn read_argument_in(word: &[u8]) -> Option<Argument>
    ensures argument { result ≡ argument_in word.now }
    ensures allowed { IfSome result IsAllowed }
{
    match equals_sign_in(word) {
        Some(at) => read_argument_with(&word[..at], &word[at + 1..]),
        None => read_lone_argument(word),
    }
}

fn equals_sign_in(word: &[u8]) -> Option<usize>
    ensures place { result ≡ position is_equals_sign word.now }
    ensures within { IfSome result (λ at. at < length word.now) }
{
    word.iter().position(|c| *c == b'=')
}

fn read_lone_argument(word: &[u8]) -> Option<Argument>
    ensures argument { result ≡ lone_argument word.now }
    ensures allowed { IfSome result IsAllowed }
{
    if word == b"--open".as_slice() {
        Some(Argument::Opens(Opening::Open))
    } else {
        None
    }
}

fn read_argument_with(name: &[u8], number: &[u8]) -> Option<Argument>
    ensures argument { result ≡ argument_with name.now number.now }
    ensures allowed { IfSome result IsAllowed }
{
    if name == b"--new".as_slice() {
        let depth = read_between(1, MOST_DEPTH, number)?;
        Some(Argument::Opens(Opening::New { depth: depth as u8 }))
    } else if name == b"--soak".as_slice() {
        let number = read_between(0, u64::MAX, number)?;
        Some(Argument::Opens(Opening::Soak { number }))
    } else if name == b"--limit".as_slice() {
        let limit = read_between(1, MOST_LIMIT, number)?;
        Some(Argument::Limit(limit as u32))
    } else if name == b"--seed".as_slice() {
        let seed = read_between(0, u64::MAX, number)?;
        Some(Argument::Seed(seed))
    } else if name == b"--workers".as_slice() {
        let workers = read_between(1, MOST_WORKERS, number)?;
        Some(Argument::Workers(workers as u8))
    } else {
        None
    }
}
