//! From the words of a command line to the options that they give.

ghost use Rattle.std.specs.Prelude.{◌≡◌, [], IfErr, IfOk, map, string_bytes};
ghost use Rattle.clap.specs.Words.{fault_of, found_of, rows_of};
ghost use Rattle.rubis_command.specs.CommandLine.{IsAsked, IsFaultAmong, IsFlag, IsGivenNumber, IsNamed, IsNumberOf, IsSetupIn, IsTextOfWords, command_line, reading_named};

use crate::commands::program;
use crate::options::{
    AuditOptions, CheckOptions, Invocation, KeepOptions, LackOptions, OptionFault, Options, ReadAs,
    SetupOptions, Widening,
};
use clap::ArgMatches;
use std::alloc::{AllocError, Global};

// A number that `clap` has read and found in its range.
fn byte(matches: &ArgMatches<'_>, name: &str) -> u8
    ensures { IsNumberOf 8 (rows_of (found_of matches.now)) name.now result }
{
    matches.get_one::<u8>(name).unwrap_or(0)
}

// A longer one.
fn word(matches: &ArgMatches<'_>, name: &str) -> u32
    ensures { IsNumberOf 32 (rows_of (found_of matches.now)) name.now result }
{
    matches.get_one::<u32>(name).unwrap_or(0)
}

// A number of an option that may not be given.
fn given_byte(matches: &ArgMatches<'_>, name: &str) -> Option<u8>
    ensures { IsGivenNumber 8 (rows_of (found_of matches.now)) name.now result }
{
    matches.get_one::<u8>(name)
}

// A longer one.
fn given_word(matches: &ArgMatches<'_>, name: &str) -> Option<u32>
    ensures { IsGivenNumber 32 (rows_of (found_of matches.now)) name.now result }
{
    matches.get_one::<u32>(name)
}

// Whether an option without a value is given.
fn flag(matches: &ArgMatches<'_>, name: &str) -> bool
    ensures { IsFlag (rows_of (found_of matches.now)) name.now result }
{
    matches.get_flag(name)
}

// The text of an argument.
fn text<'a>(matches: &ArgMatches<'a>, name: &str) -> &'a str
    ensures { IsTextOfWords (rows_of (found_of matches.now)) name.now result.now }
{
    matches.get_str(name).unwrap_or("")
}

// The command that a name says, if it is one whose records are checked.
fn reading_named(name: &str) -> Option<ReadAs>
    ensures { result ≡ reading_named name.now }
{
    match name {
        "site" => Some(ReadAs::Site),
        "world" => Some(ReadAs::World),
        "audit" => Some(ReadAs::Audit),
        _ => None,
    }
}

fn read_setup(matches: &ArgMatches<'_>) -> SetupOptions
    ensures { IsSetupIn (rows_of (found_of matches.now)) result }
{
    SetupOptions {
        sites: byte(matches, "sites"),
        shards: byte(matches, "shards"),
        workers: byte(matches, "workers"),
        batch: word(matches, "batch"),
        keep: word(matches, "keep"),
    }
}

// What a command of this name asks for, with the options that stand after it.
fn asked_of(alloc: Global, name: &str, options: &ArgMatches<'_>) -> Result<Invocation, AllocError>
    ensures { IfOk result (IsNamed name.now (rows_of (found_of options.now))) }
{
    match name {
        "audit" => Ok(Invocation::Audit(AuditOptions {
            sites: byte(options, "sites"),
            status: flag(options, "status"),
        })),
        "world" => Ok(Invocation::World(read_setup(options))),
        "widen" => Ok(Invocation::Widen(Widening {
            sites: byte(options, "sites"),
            to: byte(options, "to"),
        })),
        "keep" => Ok(Invocation::Keep(KeepOptions {
            folder: String::from_str(alloc, text(options, "folder"))?,
            site: given_byte(options, "site"),
            sites: given_byte(options, "sites"),
            keep: given_word(options, "keep"),
            shards: byte(options, "shards"),
            workers: byte(options, "workers"),
            batch: word(options, "batch"),
            sync: flag(options, "sync"),
            shorten: flag(options, "shorten"),
            upgrade: flag(options, "upgrade"),
        })),
        "lack" => Ok(Invocation::Lack(LackOptions {
            sites: byte(options, "sites"),
            waiting: flag(options, "waiting"),
            site: given_byte(options, "site"),
            keep: given_word(options, "keep"),
        })),
        "check" => Ok(Invocation::Check(CheckOptions {
            reading: reading_named(text(options, "reading")),
            sites: byte(options, "sites"),
        })),
        _ => Ok(Invocation::Site(Options {
            site: byte(options, "site"),
            setup: read_setup(options),
        })),
    }
}

/// What the words of a command line, the program's name first, ask for. If they are refused, it is for one of the
/// reasons that this command line has to refuse them, or because memory ran out.
pub fn read_options(alloc: Global, words: &[String]) -> Result<Invocation, OptionFault>
    ensures ok { IfOk result (IsAsked (map string_bytes words.now)) }
    ensures fits { IfOk result (λ run. fault_of command_line (map string_bytes words.now) ≡ []) }
    ensures fault { IfErr result (IsFaultAmong (fault_of command_line (map string_bytes words.now))) }
{
    let matches = program(alloc)?.try_get_matches_from(words)?;
    match matches.subcommand() {
        Some((name, options)) => Ok(asked_of(alloc, name, options)?),
        None => unreachable!(),
    }
}
