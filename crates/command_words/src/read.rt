//! Reading the words: what they say, each by a small function.

ghost use Rattle.std.specs.Prelude.{◌≡◌, ◌≢◌, ◌≤◌, ◌⊎◌, ◌↔◌, [], IfErr, IfOk, IsTrue, None, Some, codes, map};
ghost use Rattle.std.specs.Prelude.{option_map, string_bytes, unwrap_or};
ghost use Rattle.clap.specs.Words.{first_value, found_of, kind_of, matched_of, raw_values, rows_of};
ghost use Rattle.command_words.specs.Said.{Chooses, Reads, ReadsForm, ReadsOthers, SaysOrNot};
ghost use Rattle.command_words.specs.Budget.{budget_of};
ghost use Rattle.command_words.specs.Lines.{IsLinesOrNot};

use crate::budget::{DEFAULT_BUDGET, budget_in};
use crate::command::make_command;
use crate::fault::WordsFault;
use crate::pieces::{Generate, generate_in};
use clap::error::ErrorKind;
use clap::{ArgMatches, Error};
use off_regions::{RangeFault, Ranges};
use std::alloc::{AllocError, Global};

/// Which style the words choose.
#[derive(Clone, Copy, Debug, PartialEq, Eq)]
pub enum StyleChoice<'w> {
    /// The configuration of the working folder, or LLVM where there is none: `file`, and without `--style`.
    File,
    /// The configuration at this path: `file:PATH`.
    FileAt(&'w str),
    /// The style of this name. It need not be known.
    Named(&'w str),
}

/// What the words say.
#[derive(Drop)]
pub struct Words<'w> {
    /// `--style S`.
    pub style: StyleChoice<'w>,
    /// `--lines L`: the lines that are asked for, all where it isn't given.
    pub lines: Option<Ranges>,
    /// `--states N`: how many cells the search of a line may have.
    pub budget: u64,
    /// `-i`: each FILE is written back.
    pub in_place: bool,
    /// `--dry-run`: no text is written, and each input's summary is told.
    pub dry_run: bool,
    /// `--Werror`: a dry run tells by its status whether some text would change.
    pub werror: bool,
    /// `--dump-config`: the style in force is written, and no input is read.
    pub dump_config: bool,
    /// `--generate N:COUNT`: the input that is made in place of the source.
    pub generate: Option<Generate>,
    /// The FILEs in order, none for standard input.
    pub files: Vec<&'w str>,
}

/// What the words say before the value of `--generate` is read, which comes last.
#[derive(Drop)]
struct Given<'w> {
    /// All else that they say.
    said: Words<'w>,
    /// The value of `--generate`.
    generate: Option<&'w str>,
}

/// The choice that a value of `--style` makes.
fn choice_of<'w>(word: &'w str) -> StyleChoice<'w>
    ensures { Chooses word.entry.now result }
{
    if word == "file" {
        return StyleChoice::File;
    }
    match word.strip_prefix("file:") {
        Some(path) => StyleChoice::FileAt(path),
        None => StyleChoice::Named(word),
    }
}

/// Whether a flag was given.
fn is_given(matches: &ArgMatches, flag: &str) -> bool
    ensures { IsTrue result ↔ (first_value (found_of matches.now) flag.now ≡ Some (codes "true")) }
{
    match matches.get_str(flag) {
        Some(text) => text == "true",
        None => false,
    }
}

/// The choice of the style, `file` where none was given.
fn style_of<'w>(matches: &ArgMatches<'w>) -> StyleChoice<'w>
    ensures { Chooses (unwrap_or (first_value (found_of matches.now) (codes "style")) (codes "file")) result }
{
    choice_of(matches.get_str("style").unwrap_or("file"))
}

/// The lines that are asked for, or why the value of `--lines` tells none.
fn lines_of<'w>(alloc: Global, matches: &ArgMatches<'w>) -> Result<Option<Ranges>, WordsFault<'w>>
    ensures { IsLinesOrNot (first_value (found_of matches.now) (codes "lines")) result }
{
    match matches.get_str("lines") {
        None => Ok(None),
        Some(word) => match Ranges::parse(alloc, word) {
            Ok(ranges) => Ok(Some(ranges)),
            Err(RangeFault::NoMemory) => Err(WordsFault::NoMemory),
            Err(fault) => Err(WordsFault::BadLines { word, fault }),
        },
    }
}

/// The budget, or the value of `--states` that tells none.
fn budget_of<'w>(matches: &ArgMatches<'w>) -> Result<u64, &'w str>
    ensures some { IfOk result
        (λ budget. budget_of (first_value (found_of matches.now) (codes "states")) ≡ Some budget) }
    ensures most { IfOk result (λ budget. budget ≤ 16000000) }
    ensures none { IfErr result (λ word.
        (first_value (found_of matches.now) (codes "states") ≡ Some word.now) × (budget_of (Some word.now) ≡ None)) }
{
    match matches.get_str("states") {
        None => Ok(DEFAULT_BUDGET),
        Some(word) => match budget_in(word) {
            Some(budget) => Ok(budget),
            None => Err(word),
        },
    }
}

/// The FILEs that were given.
fn files_of<'w>(alloc: Global, matches: &ArgMatches<'w>) -> Result<Vec<&'w str>, AllocError>
    ensures { IfOk result (λ files.
        map (λ name. name.now) files.items
        ≡ unwrap_or (option_map raw_values (matched_of (found_of matches.now) (codes "file"))) []) }
{
    match matches.get_strs("file") {
        Some(files) => Vec::from_slice(alloc, files),
        None => Ok(Vec::new(alloc)),
    }
}

/// What the matches say.
fn said<'w>(alloc: Global, matches: &ArgMatches<'w>) -> Result<Given<'w>, WordsFault<'w>>
    ensures says { SaysOrNot (rows_of (found_of matches.now)) result }
    ensures most { IfOk result (λ given. given.said.budget ≤ 16000000) }
{
    let lines = lines_of(alloc, matches)?;
    let budget = match budget_of(matches) {
        Ok(budget) => budget,
        Err(word) => return Err(WordsFault::BadStates(word)),
    };
    let files = files_of(alloc, matches)?;
    let style = style_of(matches);
    let in_place = is_given(matches, "in-place");
    let dry_run = is_given(matches, "dry-run");
    let werror = is_given(matches, "Werror");
    let dump_config = is_given(matches, "dump-config");
    let generate = matches.get_str("generate");
    Ok(Given {
        said: Words {
            style,
            lines,
            budget,
            in_place,
            dry_run,
            werror,
            dump_config,
            generate: None,
            files,
        },
        generate,
    })
}

/// Why the parse failed.
fn fault_of_error<'w>(error: &Error) -> WordsFault<'w>
    ensures form { result ≡ WordsFault.Form → kind_of error.now ≢ ErrorKind.OutOfMemory }
    ensures cause { (result ≡ WordsFault.Form) ⊎ (result ≡ WordsFault.NoMemory) }
{
    match error.kind() {
        ErrorKind::OutOfMemory => WordsFault::NoMemory,
        _ => WordsFault::Form,
    }
}

/// Reads words of the command's form.
fn read_form<'w>(alloc: Global, words: &'w [String]) -> Result<Given<'w>, WordsFault<'w>>
    ensures reads { ReadsForm (map string_bytes words.now) result }
    ensures most { IfOk result (λ given. given.said.budget ≤ 16000000) }
{
    let command = make_command(alloc)?;
    match command.try_get_matches_from(words) {
        Ok(matches) => said(alloc, &matches),
        Err(error) => Err(fault_of_error(&error)),
    }
}

/// Reads words, but for the value of `--generate`.
fn read_others<'w>(alloc: Global, words: &'w [String]) -> Result<Given<'w>, WordsFault<'w>>
    ensures reads { ReadsOthers (map string_bytes words.now) result }
    ensures most { IfOk result (λ given. given.said.budget ≤ 16000000) }
{
    let given = read_form(alloc, words)?;
    if given.said.in_place && !given.said.dump_config && given.said.files.is_empty() {
        return Err(WordsFault::NoInput);
    }
    if given.said.lines.is_some() && given.said.files.len() > 1 {
        return Err(WordsFault::ManyFiles);
    }
    Ok(given)
}

/// Reads the words that stand after the program's name.
///
/// `Form`: they are not of the command's form. `BadLines`: they are, and the value of `--lines` is no list of ranges.
/// `BadStates`: `--states` tells no budget. `NoInput`: they have `-i` and neither a FILE nor `--dump-config`.
/// `ManyFiles`: they have `--lines` and two FILEs or more. `BadGenerate`: the value of `--generate` isn't N:COUNT.
/// `GenerateBeside`: they have `--generate` and a FILE, `-i` or `--dump-config`. The first that fits is told.
/// `NoMemory`: memory ran out.
pub fn read_words<'w>(alloc: Global, words: &'w [String]) -> Result<Words<'w>, WordsFault<'w>>
    ensures reads { Reads (map string_bytes words.now) result }
    ensures most { IfOk result (λ said. said.budget ≤ 16000000) }
{
    let Given { mut said, generate } = read_others(alloc, words)?;
    let Some(word) = generate else {
        return Ok(said);
    };
    let Some(made) = generate_in(word) else {
        return Err(WordsFault::BadGenerate(word));
    };
    if said.in_place || said.dump_config || !said.files.is_empty() {
        return Err(WordsFault::GenerateBeside);
    }
    said.generate = Some(made);
    Ok(said)
}
