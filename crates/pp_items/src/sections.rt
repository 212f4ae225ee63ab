//! The sections of a text, computed: what preprocessing reads of its bytes.
//!
//! [`sections_of`] cuts a text into texts between directives and directives, each with its items, as the
//! model of preprocessing defines it (C11 6.10p1, p2).

ghost use Rattle.std.specs.Prelude.{◌≡◌, ◌≤◌, length, IfOk};
ghost use Rattle.c_chars.specs.declared.TheConstants.{LIMIT};
ghost use Rattle.pp_model.specs.Stream.{source_of};
ghost use Rattle.pp_items.specs.View.{source_shown};

use crate::cut::Cutter;
use crate::item::PpSection;
use crate::reader::Reader;
use c_lexer::{Dialect, LIMIT, LexFault, Lexer};
use std::alloc::{AllocError, Global};

/// The sections of a text of at most [`LIMIT`] bytes, in order; none exactly where it doesn't lex.
pub fn sections_of(
    alloc: Global,
    text: &[u8],
    dialect: Dialect,
) -> Result<Option<Vec<PpSection>>, AllocError>
    requires fits { length text.now ≤ LIMIT }
    ensures { IfOk result (λ sections. source_shown sections ≡ source_of dialect text.now) }
{
    let mut lexer = Lexer::new(text, dialect);
    let mut reader = Reader::new(text, dialect);
    let mut cutter = Cutter::new(alloc, dialect);
    loop {
        let stood = lexer.standing();
        match lexer.next_lexeme() {
            Ok(Some(lexeme)) => cutter.take(reader.read(alloc, stood, &lexeme)?)?,
            Ok(None) => {
                let sections = cutter.finish()?;
                return Ok(Some(sections));
            }
            Err(LexFault::UnterminatedComment { .. }) => return Ok(None),
        }
    }
}
