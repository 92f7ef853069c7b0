//! What `clap` takes, made of the table of the commands.

ghost use Rattle.std.specs.Prelude.{◌≡◌, false, IfOk, map};
ghost use Rattle.clap.specs.Words.{app_of, rule_of};
ghost use Rattle.clap.specs.declared.builder.command.Command.TheViews.{out-Command};
ghost use Rattle.rubis_command.specs.CommandLine.{app_in, command_line, program_alone, rule_in, with_commands};

use self::ArgumentKind::*;
use crate::table::COMMANDS;
use clap::builder::ValueParser;
use clap::{Arg, ArgAction, Command};
use std::alloc::{AllocError, Global};

/// What an argument is, and what it takes.
#[derive(Clone, Copy)]
pub(crate) enum ArgumentKind {
    /// An option that takes a number from the first to the second, and has the third if it isn't given.
    Number(u64, u64, &'static str),
    /// An option that takes a number from the first to the second, and has none if it isn't given.
    OptionalNumber(u64, u64),
    /// An option that takes nothing.
    Flag,
    /// A word that has to be given. Help calls it by this name.
    RequiredText(&'static str),
    /// A word that help calls by the first, and that is the second if it isn't given.
    DefaultText(&'static str, &'static str),
}

/// An argument of a command.
#[derive(Clone, Copy)]
pub(crate) struct Argument {
    pub(crate) name: &'static str,
    pub(crate) kind: ArgumentKind,
    pub(crate) help: &'static str,
}

/// A command, with its arguments in the order of its help.
#[derive(Clone, Copy)]
pub(crate) struct CommandRow {
    pub(crate) name: &'static str,
    pub(crate) about: &'static str,
    pub(crate) examples: &'static str,
    pub(crate) arguments: &'static [Argument],
}

impl Argument {
    // The argument, as `clap` takes it.
    fn to_arg<'a>(&'a self, alloc: Global) -> Arg<'a>
        ensures rule { rule_of result ≡ rule_in self.entry.now }
        ensures local { result.global ≡ false }
    {
        let argument = Arg::new(alloc, self.name).help(self.help);
        match self.kind {
            Number(low, high, default) => argument
                .long(self.name)
                .value_name("n")
                .value_parser(ValueParser::unsigned(low, high))
                .default_value(default),
            OptionalNumber(low, high) => argument
                .long(self.name)
                .value_name("n")
                .value_parser(ValueParser::unsigned(low, high)),
            Flag => argument.long(self.name).action(ArgAction::SetTrue),
            RequiredText(shown) => argument.value_name(shown).required(true),
            DefaultText(shown, default) => argument.value_name(shown).default_value(default),
        }
    }
}

impl CommandRow {
    // The command, as `clap` takes it.
    fn to_command<'a>(&'a self, alloc: Global) -> Result<Command<'a>, AllocError>
        ensures app { IfOk result (λ made. app_of made ≡ app_in self.entry.now) }
        ensures local { IfOk result (λ made. (out-Command made).has_globals ≡ false) }
    {
        let mut made = Command::new(alloc, self.name)
            .about(self.about)
            .after_help(self.examples);
        for argument in self.arguments {
            made = made.arg(argument.to_arg(alloc))?;
        }
        Ok(made)
    }
}

// The program with these commands.
fn program_of<'a>(alloc: Global, rows: &'a [CommandRow]) -> Result<Command<'a>, AllocError>
    ensures { IfOk result (λ made. app_of made ≡ with_commands program_alone (map app_in rows.entry.now)) }
{
    let mut program = Command::new(alloc, "rubis")
        .bin_name("rubis")?
        .version("0.1.0")
        .about("A replicated auction store under RedBlue consistency, with proved contracts")
        .subcommand_required(true);
    for row in rows {
        program = program.subcommand(row.to_command(alloc)?)?;
    }
    Ok(program)
}

/// The command line of the program.
pub(crate) fn program<'a>(alloc: Global) -> Result<Command<'a>, AllocError>
    ensures { IfOk result (λ made. app_of made ≡ command_line) }
{
    program_of(alloc, &COMMANDS)
}
