//! How items stand: in texts, or in directives.

ghost use Rattle.std.specs.Prelude.{◌≡◌, ◌≤◌, ℕ, drop, length};
ghost use Rattle.replacements.specs.Stances.{stance_in};

use token_arena::Section;

/// How an item stands in its text.
#[derive(Clone, Copy, Debug, PartialEq, Eq)]
pub enum Stance {
    /// In a text.
    OfText,
    /// First in a directive, and so in its line.
    Leads,
    /// In a directive, behind another item of it.
    Within,
}

/// How the item with this number stands, where the sections from `next` on hold it; `next` is moved to its section.
#[inline(always)]
pub fn stance_at(sections: &[Section], next: &mut usize, place: u32) -> Stance
    requires { next.old ≤ length sections.now }
    ensures within { next.new ≤ length sections.now }
    ensures later { (k : ℕ) → place ≤ k →
        stance_in (drop next.new sections.now) k ≡ stance_in (drop next.old sections.now) k }
    ensures is { result ≡ stance_in (drop next.old sections.now) place }
{
    while *next < sections.len() {
        match sections[*next] {
            Section::Text { end, .. } => {
                if place < end {
                    return Stance::OfText;
                }
            }
            Section::Dir(directive) => {
                if place < directive.end {
                    return if place == directive.first {
                        Stance::Leads
                    } else {
                        Stance::Within
                    };
                }
            }
        }
        *next += 1;
    }
    Stance::OfText
}
