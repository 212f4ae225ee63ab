//! What an include directive begins (C11 6.10.2).

ghost use Rattle.std.specs.Prelude.{◌≡◌, ◌<◌, ◌≤◌, ◌-◌, ℕ, map, length, IfOk, IfSome, IsErrOf, Option, Some, None};
ghost use Rattle.c_chars.specs.declared.TheConstants.{LIMIT};
ghost use Rattle.pp_model.specs.Preprocess.{Includer, include_by, included, read_source, key_of, inside, outside};
ghost use Rattle.pp_model.specs.Stream.{source_of};
ghost use Rattle.pp_events.specs.View.{tok_shown};
ghost use Rattle.pp_directives.specs.SettingView.{text_shown};
ghost use Rattle.pp_directives.specs.WorldView.{world_shown};
ghost use Rattle.pp_text.specs.Unread.{includes_of, entered};
ghost use Rattle.pp_text.specs.ReadingView.{rules_shown, sections_shown, included_by};
ghost use Rattle.pp_text.specs.Work.{count_of, count_in};
ghost use Rattle.pp_text.specs.Fits.{IncludesFit};
ghost use Rattle.pp_text.specs.declared.fault.EventsFault.TheVariants as EventsFault;

use crate::fault::EventsFault;
use crate::rules::Rules;
use c_chars::LIMIT;
use pp_directives::{Event, World, find_text, names_file};
use pp_events::{Tok, expand};
use pp_items::{PpSection, sections_of};
use std::alloc::AllocError;
use std::collections::VecDeque;

/// The operand of an include directive, expanded unless it is one header name or one string; none
/// where the turns don't suffice.
#[tactic(auto, using(crate::proofs::Walks::names_file_is, crate::proofs::Walks::names_no_file))]
fn operand(
    rules: &Rules,
    world: &mut World,
    tokens: VecDeque<Tok>,
) -> Result<Option<Vec<Tok>>, AllocError>
    ensures { IfOk result (λ r.
        (include : Includer) →
        include_by (rules_shown rules.now).kinds include (map tok_shown tokens.items) (world_shown world.old)
        ≡ included_by include r (world_shown world.new)) }
{
    if names_file(&tokens) {
        return Ok(Some(Vec::from(tokens)));
    }
    let alloc = rules.alloc;
    match expand(
        alloc,
        &rules.spellings,
        world.table.as_slice(),
        world.turns,
        tokens,
    )? {
        None => {
            world.spend(alloc)?;
            Ok(None)
        }
        Some((made, left)) => {
            world.turns = left;
            Ok(Some(made))
        }
    }
}

/// The sections of a text that an include finds; one that doesn't lex gives an event instead.
fn open_text(
    rules: &Rules,
    world: &mut World,
    bytes: &[u8],
) -> Result<Option<Vec<PpSection>>, EventsFault>
    ensures shown { IfOk result (λ r.
        (depth : ℕ) →
        outside (world_shown world.old) (read_source (rules_shown rules.now).kinds (rules_shown rules.now).holds
        (includes_of (rules_shown rules.now) (depth - 1)) (inside (world_shown world.old))
        (source_of rules.now.spellings.dialect bytes.now))
        ≡ entered (rules_shown rules.now) depth (sections_shown r) (world_shown world.new)) }
    ensures counted { IfOk result
        (λ r. IfSome r (λ v. length v.items ≡ count_of (source_of rules.now.spellings.dialect bytes.now))) }
    ensures small { length bytes.now ≤ LIMIT → ¬ IsErrOf result EventsFault.TooLarge }
{
    if bytes.len() > LIMIT {
        return Err(EventsFault::TooLarge);
    }
    match sections_of(rules.alloc, bytes, rules.spellings.dialect)? {
        None => {
            world.emit(Event::Unlexed)?;
            world.pending = VecDeque::new(rules.alloc);
            world.jump = None;
            Ok(None)
        }
        Some(sections) => Ok(Some(sections)),
    }
}

/// The sections of the text that an include of this operand finds, where depth is left.
#[tactic(auto, using(crate::proofs::Walks::deeper, crate::proofs::Works::find_counted))]
fn find(
    rules: &Rules,
    depth: u64,
    world: &mut World,
    key: &[Tok],
) -> Result<Option<Vec<PpSection>>, EventsFault>
    ensures shown { IfOk result (λ r.
        includes_of (rules_shown rules.now) depth (world_shown world.old) (key_of (map tok_shown key.now))
        ≡ entered (rules_shown rules.now) depth (sections_shown r) (world_shown world.new)) }
    ensures deep { IfOk result (λ r. IfSome r (λ _. 0 < depth)) }
    ensures counted { IfOk result (λ r.
        IfSome r (λ v.
        length v.items
        ≤ count_in rules.now.spellings.dialect (map text_shown rules.now.setting.now.includes.items))) }
    ensures small { IncludesFit rules.now.setting.now → ¬ IsErrOf result EventsFault.TooLarge }
{
    if depth == 0 {
        world.emit(Event::IncludeNotFound)?;
        return Ok(None);
    }
    match find_text(rules.setting.includes.as_slice(), key) {
        None => {
            world.emit(Event::IncludeNotFound)?;
            Ok(None)
        }
        Some(bytes) => open_text(rules, world, bytes),
    }
}

/// The sections of the text that an include directive begins; in an active group it first expands the
/// text before it.
pub(crate) fn included(
    rules: &Rules,
    depth: u64,
    world: &mut World,
    tokens: VecDeque<Tok>,
) -> Result<Option<Vec<PpSection>>, EventsFault>
    ensures shown { IfOk result (λ r.
        included (rules_shown rules.now).kinds (includes_of (rules_shown rules.now) depth)
        (map tok_shown tokens.items) (world_shown world.old)
        ≡ entered (rules_shown rules.now) depth (sections_shown r) (world_shown world.new)) }
    ensures deep { IfOk result (λ r. IfSome r (λ _. 0 < depth)) }
    ensures counted { IfOk result (λ r.
        IfSome r (λ v.
        length v.items
        ≤ count_in rules.now.spellings.dialect (map text_shown rules.now.setting.now.includes.items))) }
    ensures small { IncludesFit rules.now.setting.now → ¬ IsErrOf result EventsFault.TooLarge }
{
    if world.acts(rules.alloc, &rules.spellings)? {
        match operand(rules, world, tokens)? {
            None => Ok(None),
            Some(key) => find(rules, depth, world, key.as_slice()),
        }
    } else {
        Ok(None)
    }
}
