//! Where tokens stand on a row.

ghost use Rattle.std.specs.Prelude.{◌≡◌};
ghost use Rattle.line_tokens.specs.Columns.{end_of, stored_or};

use crate::{Fixed, LineTok};

/// The stored column of a decided gap, or the other one where the gap isn't decided.
#[inline(always)]
pub fn stored_or(fixed: Option<Fixed>, other: u32) -> u32
    ensures { result ≡ stored_or fixed other }
{
    match fixed {
        None => other,
        Some(fixed) => fixed.column,
    }
}

impl LineTok {
    /// The column behind the token where it starts at this one, from 0: that of its last row. No column passes
    /// 4,294,967,295.
    #[inline(always)]
    pub fn end_of(&self, start: u32) -> u32
        ensures { result ≡ end_of self.now start }
    {
        if self.rows > 1 {
            self.last_width
        } else {
            start.saturating_add(self.last_width)
        }
    }
}
