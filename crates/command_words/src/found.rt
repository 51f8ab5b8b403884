//! The arguments that words have.
ghost use Rattle.std.specs.Prelude.{◌≡◌, [], map, string_bytes, IfSome, MatchOption};
ghost use Rattle.command_words.specs.Commands.{command_of, IsWithin};
ghost use Rattle.command_words.specs.Private.Found.{command_with, IsAdded, IsAllowed, IsRefused, AreAllowed};

use crate::arguments::{Argument, next_argument};
use crate::commands::{Command, Opening};

/// The arguments that were found so far.
#[derive(Clone, Copy)]
pub(crate) struct Found {
    opening: Option<Opening>,
    limit: Option<u32>,
    seed: Option<u64>,
    workers: Option<u8>,
}

impl Found {
    /// Reads the arguments in the words; `None` where a word is no argument, or two are of one kind.
    #[tactic(auto, unfolding(crate::specs::Commands::command_of))]
    pub(crate) fn read(words: &[String]) -> Option<Found>
        ensures command { MatchOption result (command_of (map string_bytes words.now) ≡ None)
            (λ found. command_of (map string_bytes words.now) ≡ command_with found []) }
        ensures allowed { IfSome result AreAllowed }
    {
        let mut found = Found::new();
        let mut rest = words;
        while let Some((word, after)) = rest.split_first() {
            let (argument, after) = next_argument(word.as_bytes(), after)?;
            found = found.with(argument)?;
            rest = after;
        }
        Some(found)
    }

    fn new() -> Found
        ensures { result ≡ record { opening = None; limit = None; seed = None; workers = None } }
    {
        Found {
            opening: None,
            limit: None,
            seed: None,
            workers: None,
        }
    }

    /// With one more argument; `None` where one of its kind was found.
    fn with(self, argument: Argument) -> Option<Found>
        requires found { AreAllowed self }
        requires argument { IsAllowed argument }
        ensures command { MatchOption result (IsRefused self argument) (IsAdded self argument) }
        ensures allowed { IfSome result AreAllowed }
    {
        match argument {
            Argument::Opens(opening) if self.opening.is_none() => Some(Found {
                opening: Some(opening),
                ..self
            }),
            Argument::Limit(limit) if self.limit.is_none() => Some(Found {
                limit: Some(limit),
                ..self
            }),
            Argument::Seed(seed) if self.seed.is_none() => Some(Found {
                seed: Some(seed),
                ..self
            }),
            Argument::Workers(workers) if self.workers.is_none() => Some(Found {
                workers: Some(workers),
                ..self
            }),
            _ => None,
        }
    }

    /// The command that the arguments say; `None` where none of them says how a group is opened.
    pub(crate) fn command(self) -> Option<Command>
        requires { AreAllowed self }
        ensures command { result ≡ command_with self [] }
        ensures within { IfSome result IsWithin }
    {
        let opening = self.opening?;
        let limit = self.limit.unwrap_or(u32::MAX);
        let seed = self.seed.unwrap_or(0);
        let workers = self.workers.unwrap_or(1);
        Some(Command {
            opening,
            limit,
            seed,
            workers,
        })
    }
}
