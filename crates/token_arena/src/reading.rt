//! Reads a text into an arena.

ghost use Rattle.std.specs.Prelude.{◌≡◌, ◌<◌, ◌≤◌, ◌+◌, ◌^◌, ◌∷◌, ◌++◌, [], length, IfOk, IfErr, IsTrue};
ghost use Rattle.std.specs.Prelude.{if◌then◌else◌};
ghost use Rattle.std.specs.List.{list_all};
ghost use Rattle.c_chars.specs.Characters.{is_plain};
ghost use Rattle.c_grammar.specs.Fitting.{is_comment};
ghost use Rattle.c_chars.specs.declared.TheConstants.{LIMIT};
ghost use Rattle.token_arena.specs.Building.{IsArenaOf, IsCause};
ghost use Rattle.token_arena.specs.Entries.{AreEntries};
ghost use Rattle.token_arena.specs.Hashes.{may_be_hash};
ghost use Rattle.token_arena.specs.declared.fault.ArenaFault.TheVariants.{NoMemory};

use crate::arena::{Entry, TokenArena};
use crate::directives::names::is_comment;
use crate::facts::{Told, entry_of, told_by_bytes};
use crate::fault::ArenaFault;
use bumpalo::Bump;
use bumpalo::collections::into_bump_slice;
use c_lexer::{Dialect, ItemKind, LIMIT, LexFault, Lexer};

/// Notes the number of an item of this kind, where it is a comment.
#[inline(always)]
fn note_comment(comments: &mut Vec<u32, &Bump>, kind: ItemKind, id: usize) -> Result<(), ArenaFault>
    requires { id < 2 ^ 32 }
    ensures ok { IfOk result
        (λ _. comments.new.items ≡ comments.old.items ++ (if is_comment kind then id ∷ [] else [])) }
    ensures err { IfErr result (λ fault. fault ≡ NoMemory) }
{
    if is_comment(kind) {
        comments.push(id as u32)?;
    }
    Ok(())
}

/// Whether an item of this kind and these bytes may be a `#`, by the first of them.
#[tactic(auto, unfolding(crate::specs::Hashes::may_spell_hash))]
#[inline(always)]
fn may_be_hash(kind: ItemKind, raw: &[u8]) -> bool
    ensures { result ≡ may_be_hash kind raw.now }
{
    if !matches!(kind, ItemKind::Punct) {
        return false;
    }
    match raw {
        [first, ..] => *first <= b'%' || *first == b'?' || *first == b'\\',
        _ => true,
    }
}

/// The same, where each of the bytes is a character by itself.
#[inline(always)]
fn may_be_plain_hash(kind: ItemKind, raw: &[u8]) -> bool
    requires { IsTrue (list_all is_plain raw.now) }
    ensures { result ≡ may_be_hash kind raw.now }
{
    if !matches!(kind, ItemKind::Punct) {
        return false;
    }
    match raw {
        [first, ..] => *first <= b'%',
        _ => true,
    }
}

/// Notes the number of an item, where it may be a `#`.
#[inline(always)]
fn note_hash(hashes: &mut Vec<u32, &Bump>, likely: bool, id: usize) -> Result<(), ArenaFault>
    requires { id < 2 ^ 32 }
    ensures ok { IfOk result (λ _. hashes.new.items ≡ hashes.old.items ++ (if likely then id ∷ [] else [])) }
    ensures err { IfErr result (λ fault. fault ≡ NoMemory) }
{
    if likely {
        hashes.push(id as u32)?;
    }
    Ok(())
}

/// The entries of the items of a text, and the numbers of those among them that are comments or may be a `#`.
#[derive(Clone, Copy)]
struct Kept<'a> {
    entries: &'a [Entry],
    comments: &'a [u32],
    hashes: &'a [u32],
}

/// What is kept of all items of a text.
fn entries_of<'a>(bump: &'a Bump, text: &[u8], dialect: Dialect) -> Result<Kept<'a>, ArenaFault>
    requires fits { length text.now ≤ LIMIT }
    ensures entries { IfOk result (λ kept.
        AreEntries text.now dialect kept.entries.now kept.comments.now kept.hashes.now) }
    ensures fault { IfErr result (IsCause dialect text.now) }
{
    // Each item has a byte at least, and a comment has two. Memory that holds none is never touched.
    // The largest room comes last: a bump asks for no less than twice what it asked for before.
    let mut hashes = Vec::with_capacity(bump, text.len() / 16)?;
    let mut comments = Vec::with_capacity(bump, text.len() / 2)?;
    let mut entries = Vec::with_capacity(bump, text.len())?;
    let mut lexer = Lexer::new(text, dialect);
    loop {
        let gap = lexer.at() as u32;
        if let Some(lexeme) = lexer.next_plain_lexeme() {
            let id = entries.len();
            note_comment(&mut comments, lexeme.item.kind, id)?;
            let likely = may_be_plain_hash(lexeme.item.kind, lexeme.item.raw);
            note_hash(&mut hashes, likely, id)?;
            entries.push(entry_of(&lexeme, gap, Told::Itself))?;
            continue;
        }
        // By a second reader, so that the first needs no place in memory.
        let mut other = lexer.ahead();
        match other.next_any() {
            Ok(Some(lexeme)) => {
                let id = entries.len();
                note_comment(&mut comments, lexeme.item.kind, id)?;
                let likely = may_be_hash(lexeme.item.kind, lexeme.item.raw);
                note_hash(&mut hashes, likely, id)?;
                entries.push(entry_of(&lexeme, gap, told_by_bytes(lexeme.item.raw)))?;
                lexer = other;
            }
            Ok(None) => {
                return Ok(Kept {
                    entries: into_bump_slice(entries),
                    comments: into_bump_slice(comments),
                    hashes: into_bump_slice(hashes),
                });
            }
            Err(LexFault::UnterminatedComment { start }) => {
                return Err(ArenaFault::UnterminatedComment { start });
            }
        }
    }
}

/// Reads a text of at most [`LIMIT`] bytes into an arena. The size is tested first.
pub fn build<'a, 's>(
    bump: &'a Bump,
    text: &'s [u8],
    dialect: Dialect,
) -> Result<TokenArena<'a, 's>, ArenaFault>
    ensures arena { IfOk result (IsArenaOf text.now dialect) }
    ensures fault { IfErr result (IsCause dialect text.now) }
{
    if text.len() > LIMIT {
        return Err(ArenaFault::TooLarge {
            bytes: text.len() as u64,
        });
    }
    let kept = entries_of(bump, text, dialect)?;
    Ok(TokenArena::of(text, dialect, kept.entries, kept.comments, kept.hashes))
}
