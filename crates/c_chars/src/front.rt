//! What a text begins with, and what stands behind that.

ghost use Rattle.std.specs.Prelude.{◌≡◌, nat_eq};
ghost use Rattle.std.specs.List.{starts_with};
ghost use Rattle.c_chars.specs.Characters.{bytes_of};
ghost use Rattle.c_chars.specs.Coming.{behind};

use crate::Chars;

/// Whether the text begins with these characters.
#[inline(always)]
pub fn begins_with(text: &Chars, front: &[u8]) -> bool
    ensures { result ≡ starts_with nat_eq (bytes_of text.now.chars) front.now }
{
    let mut rest = text.ahead();
    for b in front {
        match rest.next() {
            Some(c) => {
                if c.byte != *b {
                    return false;
                }
            }
            None => return false,
        }
    }
    true
}

/// What stands behind so many of the next characters.
#[inline(always)]
pub fn behind<'s>(text: &Chars<'s>, count: usize) -> Chars<'s>
    ensures { result ≡ behind text.now count }
{
    let mut rest = text.ahead();
    for _ in 0..count {
        match rest.next() {
            Some(_) => {}
            None => break,
        }
    }
    rest
}
