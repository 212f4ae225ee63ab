//! How an item is spelled: its bytes with trigraphs replaced and spliced lines joined (C11 5.1.1.2).

ghost use Rattle.std.specs.Prelude.{◌≡◌, ◌||◌, IfOk};
ghost use Rattle.std.specs.List.{list_all};
ghost use Rattle.c_grammar.specs.Rewritten.{read_alone};
ghost use Rattle.item_classes.specs.Viewed.{is_itself};

use bumpalo::Bump;
use bumpalo::collections::into_bump_slice;
use c_chars::{Dialect, next_character};
use line_tokens::NoMemory;

/// Whether a byte begins neither a trigraph nor a splice nor a line end. The letters that most words are made of
/// come behind all three.
#[inline(always)]
fn is_itself(byte: u8) -> bool
    ensures { result ≡ is_itself byte }
{
    byte > b'\\' || (byte != b'?' && byte != b'\r' && byte != b'\\')
}

/// Whether each byte is a character by itself.
#[inline(always)]
fn are_themselves(raw: &[u8]) -> bool
    ensures { result ≡ list_all is_itself raw.now }
{
    raw.iter().all(|byte| is_itself(*byte))
}

/// The characters of an item's bytes, written one after another.
#[inline(never)]
fn joined<'t>(dialect: Dialect, raw: &[u8], run: &'t Bump) -> Result<&'t [u8], NoMemory>
    ensures { IfOk result (λ spelled. spelled.now ≡ read_alone dialect raw.now) }
{
    let mut spelled = Vec::new(run);
    let mut rest = raw;
    while let Some((byte, behind)) = next_character(dialect, rest) {
        spelled.push(byte)?;
        rest = behind;
    }
    Ok(into_bump_slice(spelled))
}

/// The characters of an item's bytes. It takes memory only where they aren't the bytes.
#[inline(always)]
pub(crate) fn spelling<'t>(
    dialect: Dialect,
    raw: &'t [u8],
    run: &'t Bump,
) -> Result<&'t [u8], NoMemory>
    ensures { IfOk result (λ spelled. spelled.now ≡ read_alone dialect raw.now) }
{
    if are_themselves(raw) {
        return Ok(raw);
    }
    joined(dialect, raw, run)
}
