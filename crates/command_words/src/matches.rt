//! Words of the grammar, as `clap` reads them.
ghost use Rattle.std.specs.Prelude.{◌≡◌, ◌≤◌, true, false, Some, codes, map, string_bytes, IfErr, IfOk, IfSome, IsSome};
ghost use Rattle.clap.specs.Matches.{first_value, found_of};
ghost use Rattle.clap.specs.Simple.{app_of, matches_of};
ghost use Rattle.clap.specs.Takes.{takes};
ghost use Rattle.clap.specs.Values.{kind_of};
ghost use Rattle.clap.specs.Walk.{rows_of, rule_of};
ghost use Rattle.clap.specs.declared.error.kind.ErrorKind.TheVariants.{OutOfMemory};
ghost use Rattle.command_words.specs.Commands.{HasDepth, IsWithin, command_of};
ghost use Rattle.command_words.specs.Private.Program.{command_given, flag_rule, number_given, number_rule, opening_given, program, soak_given};

use crate::arguments::{MOST_DEPTH, MOST_LIMIT, MOST_WORKERS};
use crate::commands::{Command, Opening};
use crate::numbers::read_between;
use clap::{Arg, ArgAction, ArgMatches, Command as CommandLine, Error};
use group_terms::NoMemory;
use std::alloc::{AllocError, Global};

/// The command that words of the grammar ask for, as `clap` reads them.
pub fn take_words(alloc: Global, words: &[String]) -> Result<Command, NoMemory>
    requires { IsSome (command_of (map string_bytes words.now)) }
    ensures command { IfOk result (λ command. command_of (map string_bytes words.now) ≡ Some command) }
    ensures within { IfOk result IsWithin }
{
    match matches_in(alloc, words) {
        Ok(matches) => {
            let command = command_in(&matches);
            drop(matches);
            Ok(command.unwrap())
        }
        Err(error) => {
            drop(error);
            Err(NoMemory)
        }
    }
}

/// What `clap` finds in the words; what it takes it refuses only where it runs out of memory.
fn matches_in<'a>(alloc: Global, words: &'a [String]) -> Result<ArgMatches<'a>, Error>
    ensures found { IfOk result (λ matches. rows_of (found_of matches) ≡ matches_of program (map string_bytes words.now)) }
    ensures refused { IfErr result (λ error. takes program (map string_bytes words.now) ≡ true → kind_of error ≡ OutOfMemory) }
{
    let asked = command_line(alloc)?;
    asked.try_get_matches_from(words)
}

/// The command line: six arguments, whose texts are looked at when they are read.
fn command_line<'a>(alloc: Global) -> Result<CommandLine<'a>, AllocError>
    ensures { IfOk result (λ command_line. app_of command_line ≡ program) }
{
    let none = CommandLine::new(alloc, "gdoi_console").no_binary_name(true);
    let first = none.arg(flag(alloc, "open"))?;
    let second = first.arg(number(alloc, "new"))?;
    let third = second.arg(number(alloc, "soak"))?;
    let fourth = third.arg(number(alloc, "limit"))?;
    let fifth = fourth.arg(number(alloc, "seed"))?;
    fifth.arg(number(alloc, "workers"))
}

fn flag<'a>(alloc: Global, name: &'a str) -> Arg<'a>
    ensures rule { rule_of result ≡ flag_rule name.entry.now }
    ensures local { result.global ≡ false }
{
    Arg::new(alloc, name).long(name).action(ArgAction::SetTrue)
}

fn number<'a>(alloc: Global, name: &'a str) -> Arg<'a>
    ensures rule { rule_of result ≡ number_rule name.entry.now }
    ensures local { result.global ≡ false }
{
    Arg::new(alloc, name).long(name).action(ArgAction::Set)
}

/// The command that the texts of the arguments say.
fn command_in(matches: &ArgMatches<'_>) -> Option<Command>
    ensures command { result ≡ command_given (λ name. first_value (found_of matches.now) name) }
    ensures within { IfSome result IsWithin }
{
    let opening = opening_in(matches)?;
    let limit = number_in(matches, "limit", 1, MOST_LIMIT, MOST_LIMIT)?;
    let seed = number_in(matches, "seed", 0, u64::MAX, 0)?;
    let workers = number_in(matches, "workers", 1, MOST_WORKERS, 1)?;
    Some(Command {
        opening,
        limit: limit as u32,
        seed,
        workers: workers as u8,
    })
}

/// The opening that the text of `--new` asks for; where there is none, that of `--soak`.
fn opening_in(matches: &ArgMatches<'_>) -> Option<Opening>
    ensures opening { result ≡ opening_given (first_value (found_of matches.now) (codes "new")) (first_value (found_of matches.now) (codes "soak")) }
    ensures depth { IfSome result HasDepth }
{
    match matches.get_str("new") {
        Some(text) => {
            let depth = read_between(1, MOST_DEPTH, text.as_bytes())?;
            Some(Opening::New { depth: depth as u8 })
        }
        None => soak_in(matches),
    }
}

/// The soak that the text of `--soak` asks for; where there is none, the group of the disk is opened.
fn soak_in(matches: &ArgMatches<'_>) -> Option<Opening>
    ensures opening { result ≡ soak_given (first_value (found_of matches.now) (codes "soak")) }
    ensures depth { IfSome result HasDepth }
{
    match matches.get_str("soak") {
        Some(text) => {
            let number = read_between(0, u64::MAX, text.as_bytes())?;
            Some(Opening::Soak { number })
        }
        None => Some(Opening::Open),
    }
}

/// The number that the text of an argument says; where there is none, the one that holds then.
fn number_in(
    matches: &ArgMatches<'_>,
    name: &str,
    least: u64,
    greatest: u64,
    absent: u64,
) -> Option<u64>
    requires from { least ≤ absent }
    requires to { absent ≤ greatest }
    ensures number { result ≡ number_given least greatest absent (first_value (found_of matches.now) name.now) }
    ensures from { IfSome result (λ number. least ≤ number) }
    ensures to { IfSome result (λ number. number ≤ greatest) }
{
    match matches.get_str(name) {
        Some(text) => read_between(least, greatest, text.as_bytes()),
        None => Some(absent),
    }
}
