//! The command as `clap` builds it: a small function for each kind of word.
//!
//! An argument of `clap` has many fields, so each is made in a function of its own, whose clause is its rule.

ghost use Rattle.std.specs.Prelude.{◌≡◌, false, IfOk, fold, map};
ghost use Rattle.clap.specs.Words.{app_of, rule_of, with_rule};
ghost use Rattle.command_words.specs.Command.{bare, command, flag_rule, letter_rule, names_rule, option_rule};
ghost use Rattle.command_words.specs.Kinds.{kind_rule};

use clap::{Arg, ArgAction, Command};
use std::alloc::{AllocError, Global};

/// A kind of word.
#[derive(Clone, Copy)]
enum WordKind {
    /// An option with a value.
    Value,
    /// A flag.
    Flag,
    /// A flag that is written with this letter.
    Letter(char),
    /// Words that are no options, in any number.
    Names,
}

/// The words that are built, by their names.
const WORDS: &[(&str, WordKind)] = &[
    ("style", WordKind::Value),
    ("lines", WordKind::Value),
    ("states", WordKind::Value),
    ("in-place", WordKind::Letter('i')),
    ("dry-run", WordKind::Flag),
    ("Werror", WordKind::Flag),
    ("dump-config", WordKind::Flag),
    ("generate", WordKind::Value),
    ("file", WordKind::Names),
];

/// An option with a value.
fn option<'w>(alloc: Global, name: &'w str) -> Arg<'w>
    ensures rule { rule_of result ≡ option_rule name.entry.now }
    ensures local { result.global ≡ false }
{
    Arg::new(alloc, name).long(name).action(ArgAction::Set)
}

/// A flag.
fn flag<'w>(alloc: Global, name: &'w str) -> Arg<'w>
    ensures rule { rule_of result ≡ flag_rule name.entry.now }
    ensures local { result.global ≡ false }
{
    Arg::new(alloc, name).long(name).action(ArgAction::SetTrue)
}

/// A flag that is written with one letter.
fn letter<'w>(alloc: Global, name: &'w str, letter: char) -> Arg<'w>
    ensures rule { rule_of result ≡ letter_rule name.entry.now letter }
    ensures local { result.global ≡ false }
{
    Arg::new(alloc, name)
        .short(letter)
        .action(ArgAction::SetTrue)
}

/// Words that are no options, in any number.
fn names<'w>(alloc: Global, name: &'w str) -> Arg<'w>
    ensures rule { rule_of result ≡ names_rule name.entry.now }
    ensures local { result.global ≡ false }
{
    Arg::new(alloc, name).action(ArgAction::Append)
}

/// The command with one word more.
fn with_arg<'w>(command: Command<'w>, argument: Arg<'w>) -> Result<Command<'w>, AllocError>
    requires { argument.global ≡ false }
    ensures { IfOk result (λ grown. app_of grown ≡ with_rule (app_of command.entry) (rule_of argument.entry)) }
{
    command.arg(argument)
}

/// The command without words: those that `clap` has of its own are switched off.
fn bare_command<'w>(alloc: Global) -> Command<'w>
    ensures { app_of result ≡ bare }
{
    Command::new(alloc, "clang_format")
        .no_binary_name(true)
        .disable_help_flag(true)
        .disable_version_flag(true)
}

/// The argument of a kind with this name.
fn arg_of<'w>(alloc: Global, name: &'w str, kind: WordKind) -> Arg<'w>
    ensures rule { rule_of result ≡ kind_rule name.entry.now kind }
    ensures local { result.global ≡ false }
{
    match kind {
        WordKind::Value => option(alloc, name),
        WordKind::Flag => flag(alloc, name),
        WordKind::Letter(by) => letter(alloc, name, by),
        WordKind::Names => names(alloc, name),
    }
}

/// The command with these words more.
fn with_words<'w>(
    alloc: Global,
    command: Command<'w>,
    words: &[(&'w str, WordKind)],
) -> Result<Command<'w>, AllocError>
    ensures { let rules = map (λ row. kind_rule row.0.now row.1) words.entry.now in
        IfOk result (λ grown. app_of grown ≡ fold with_rule (app_of command.entry) rules) }
{
    let mut grown = command;
    for (name, kind) in words {
        grown = with_arg(grown, arg_of(alloc, name, *kind))?;
    }
    Ok(grown)
}

/// The command with all words that are built.
pub fn make_command<'w>(alloc: Global) -> Result<Command<'w>, AllocError>
    ensures { IfOk result (λ made. app_of made ≡ command) }
{
    with_words(alloc, bare_command(alloc), WORDS)
}
