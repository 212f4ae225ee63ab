//! Tokens of a line, one after another: what is told of each, and what stands to the left of the next one.

ghost use Rattle.std.specs.Prelude.{◌≡◌, ◌<◌, ◌+◌, ◌^◌, ◌∷◌, ◌++◌, [], true, false, length, vec_capacity, not};
ghost use Rattle.std.specs.Prelude.{if◌then◌else◌};
ghost use Rattle.line_tokens.specs.declared.role.Role.TheVariants.{DeclName, Word};
ghost use Rattle.token_classes.specs.Classes.{is_comment, is_plain};
ghost use Rattle.token_roles.specs.Classes.{is_closer, is_still};
ghost use Rattle.token_roles.specs.Left.{passed, counted, splits_behind};
ghost use Rattle.token_roles.specs.RoleTable.{role_of, is_declared_name};
ghost use Rattle.token_roles.specs.Marks.{partner_at, mark_at, closed_role, taken_back, ends_in_comma, is_split};
ghost use Rattle.token_roles.specs.Marks.{past_comment, past_opener, past_code, mark_of};

use crate::closing::{closed_role, mark_at, take_back};
use crate::commas::{ends_in_comma, is_split};
use crate::left::{Left, Seen, open, pass, pass_still};
use crate::mark::Mark;
use crate::power::power;
use crate::table::{is_declared_name, partner_at, role_of};
use bumpalo::Bump;
use line_tokens::{LineKind, Role};
use token_classes::TokenClass::{
    Ampersand, Arrow, Bar, BlockComment, CapitalWord, Caret, Case, CloseBrace, CloseRound,
    CloseSquare, Comma, Divide, Else, Equality, Equals, For, Hash, If, Jump, LineComment, Literal,
    OpenBrace, OpenRound, OpenSquare, Or, PlainWord, Point, Relation, Semicolon, Shift, SizeWord,
    Star, Struct, Text, TypeWord, While,
};
use token_classes::{Partner, TokenClass};

/// Goes behind a comment.
#[inline(always)]
fn pass_comment(left: &mut Left, role: Role)
    ensures { left.new ≡ past_comment left.old role }
{
    if !role.is_trailing() {
        left.splits = false;
    }
}

#[inline(always)]
fn mark_of(left: &Left, seen: Seen) -> Mark
    ensures { result ≡ mark_of left.now seen }
{
    Mark {
        seen,
        trailing_list: is_split(left, seen.role),
        power: power(seen),
        around: left.around,
    }
}

/// Tells what is to be told of an opener, and goes behind it.
#[inline(always)]
fn mark_opener(
    partners: &[Partner],
    kind: LineKind,
    before: TokenClass,
    marks: &mut Vec<Mark, &Bump>,
    left: &mut Left,
    class: TokenClass,
    after: &[TokenClass],
)
    requires opener { is_still class ≡ true }
    requires few { length marks.old.items < 2 ^ 32 }
    requires room { length marks.old.items < vec_capacity marks.old }
    ensures room { vec_capacity marks.new ≡ vec_capacity marks.old }
    ensures marks { marks.new.items ≡ marks.old.items ++ mark_of left.old (record {
      class = class;
      role = role_of class kind before left.old (length marks.old.items)
          (partner_at partners.now (length marks.old.items)) after.now;
    }) ∷ [] }
    ensures left { left.new ≡ past_opener partners.now (length marks.old.items) left.old (record {
      class = class;
      role = role_of class kind before left.old (length marks.old.items)
          (partner_at partners.now (length marks.old.items)) after.now;
    }) after.now }
{
    let place = marks.len() as u32;
    let role = role_of(class, kind, before, left, place, partners, after);
    let seen = Seen { class, role };
    let last_comma = role.is_list_open()
        && ends_in_comma(place, partner_at(partners, place), after);
    marks.push_reserved(mark_of(left, seen));
    open(left, seen, last_comma);
}

/// Tells what is to be told of a closer, and goes behind it.
#[inline(always)]
fn mark_closer(
    partners: &[Partner],
    first: u32,
    marks: &mut Vec<Mark, &Bump>,
    left: &mut Left,
    class: TokenClass,
)
    requires closer { is_still class ≡ true }
    requires few { length marks.old.items < 2 ^ 32 }
    requires room { length marks.old.items < vec_capacity marks.old }
    ensures room { vec_capacity marks.new ≡ vec_capacity marks.old }
    ensures marks { marks.new.items ≡ marks.old.items ++ mark_of left.old (record {
      class = class;
      role = closed_role class (mark_at marks.old.items (partner_at partners.now (length marks.old.items)));
    }) ∷ [] }
    ensures left { left.new ≡ passed left.old (record {
      class = class;
      role = closed_role class (mark_at marks.old.items (partner_at partners.now (length marks.old.items)));
    }) (taken_back first (partner_at partners.now (length marks.old.items))
        (mark_at marks.old.items (partner_at partners.now (length marks.old.items))) left.old.around) false }
{
    let partner = partner_at(partners, marks.len() as u32);
    let seen = Seen {
        class,
        role: closed_role(class, mark_at(marks, partner)),
    };
    let mark = mark_of(left, seen);
    take_back(&mut left.around, first, partner, marks);
    pass_still(left, seen);
    marks.push_reserved(mark);
}

/// Tells what is to be told of a token that is no comment and no bracket, and goes behind it.
#[inline(always)]
fn mark_code(
    partners: &[Partner],
    kind: LineKind,
    before: TokenClass,
    marks: &mut Vec<Mark, &Bump>,
    left: &mut Left,
    class: TokenClass,
    after: &[TokenClass],
)
    requires few { length marks.old.items < 2 ^ 32 }
    requires room { length marks.old.items < vec_capacity marks.old }
    ensures room { vec_capacity marks.new ≡ vec_capacity marks.old }
    ensures marks { marks.new.items ≡ marks.old.items ++ mark_of left.old (record {
      class = class;
      role = role_of class kind before left.old (length marks.old.items)
          (partner_at partners.now (length marks.old.items)) after.now;
    }) ∷ [] }
    ensures left { left.new ≡ passed left.old (record {
      class = class;
      role = role_of class kind before left.old (length marks.old.items)
          (partner_at partners.now (length marks.old.items)) after.now;
    }) (counted left.old.around class) (splits_behind left.old (record {
      class = class;
      role = role_of class kind before left.old (length marks.old.items)
          (partner_at partners.now (length marks.old.items)) after.now;
    })) }
{
    let place = marks.len() as u32;
    let role = role_of(class, kind, before, left, place, partners, after);
    let seen = Seen { class, role };
    marks.push_reserved(mark_of(left, seen));
    pass(left, seen);
}

/// Tells what is to be told of a token behind which little changes, with its role, and goes behind it.
#[inline(always)]
fn mark_still(marks: &mut Vec<Mark, &Bump>, left: &mut Left, class: TokenClass, role: Role)
    requires still { is_still class ≡ true }
    requires room { length marks.old.items < vec_capacity marks.old }
    ensures room { vec_capacity marks.new ≡ vec_capacity marks.old }
    ensures marks { marks.new.items ≡ marks.old.items ++ mark_of left.old (record { class = class; role = role }) ∷ [] }
    ensures left { left.new ≡ passed left.old (record { class = class; role = role }) left.old.around false }
{
    let seen = Seen { class, role };
    marks.push_reserved(mark_of(left, seen));
    pass_still(left, seen);
}

/// Tells what is to be told of a plain word, and goes behind it. Either role is known where it is written, so that it
/// is written together with the class.
#[inline(always)]
fn mark_word(
    kind: LineKind,
    marks: &mut Vec<Mark, &Bump>,
    left: &mut Left,
    class: TokenClass,
    after: &[TokenClass],
)
    requires plain { is_plain class ≡ true }
    requires room { length marks.old.items < vec_capacity marks.old }
    ensures room { vec_capacity marks.new ≡ vec_capacity marks.old }
    ensures marks { marks.new.items ≡ marks.old.items ++ mark_of left.old (record {
      class = class;
      role = if is_declared_name kind left.old after.now then DeclName else Word;
    }) ∷ [] }
    ensures left { left.new ≡ passed left.old (record {
      class = class;
      role = if is_declared_name kind left.old after.now then DeclName else Word;
    }) left.old.around false }
{
    if is_declared_name(kind, left, after) {
        mark_still(marks, left, class, Role::DeclName);
    } else {
        mark_still(marks, left, class, Role::Word);
    }
}

/// Tells what is to be told of a comment with its role, and goes behind it. The caller has room for it.
#[inline(always)]
pub fn mark_comment(marks: &mut Vec<Mark, &Bump>, left: &mut Left, seen: Seen)
    requires room { length marks.old.items < vec_capacity marks.old }
    ensures room { vec_capacity marks.new ≡ vec_capacity marks.old }
    ensures marks { marks.new.items ≡ marks.old.items ++ mark_of left.old seen ∷ [] }
    ensures left { left.new ≡ past_comment left.old seen.role }
{
    marks.push_reserved(mark_of(left, seen));
    pass_comment(left, seen.role);
}

/// Tells what is to be told of the token behind the places that were passed, and goes behind it. Answers whether it is
/// no comment: of a comment it tells nothing.
///
/// `first` is the place where its line begins, `before` is the last token before the line that is no comment, and
/// `after` is the rest of the line. The caller has room for the token.
// Of a class that has an arm of its own the tables keep one row, so the most frequent do. Others share an arm where
// they have one role.
#[inline(always)]
pub fn mark_token(
    partners: &[Partner],
    kind: LineKind,
    first: u32,
    before: TokenClass,
    marks: &mut Vec<Mark, &Bump>,
    left: &mut Left,
    class: TokenClass,
    after: &[TokenClass],
) -> bool
    requires few { length marks.old.items < 2 ^ 32 }
    requires room { length marks.old.items < vec_capacity marks.old }
    ensures code { result ≡ not (is_comment class) }
    ensures room { vec_capacity marks.new ≡ vec_capacity marks.old }
    ensures marks { marks.new.items ≡ (if is_comment class then marks.old.items
        else marks.old.items ++ mark_of left.old (record {
          class = class;
          role = if is_closer class
              then closed_role class (mark_at marks.old.items (partner_at partners.now (length marks.old.items)))
              else role_of class kind before left.old (length marks.old.items)
              (partner_at partners.now (length marks.old.items)) after.now;
        }) ∷ []) }
    ensures left { left.new ≡ (if is_comment class then left.old
        else past_code partners.now first marks.old.items left.old (record {
          class = class;
          role = if is_closer class
              then closed_role class (mark_at marks.old.items (partner_at partners.now (length marks.old.items)))
              else role_of class kind before left.old (length marks.old.items)
              (partner_at partners.now (length marks.old.items)) after.now;
        }) after.now) }
{
    match class {
        LineComment | BlockComment => return false,
        OpenRound => mark_opener(partners, kind, before, marks, left, OpenRound, after),
        OpenSquare | OpenBrace => mark_opener(partners, kind, before, marks, left, class, after),
        CloseRound => mark_closer(partners, first, marks, left, CloseRound),
        CloseSquare | CloseBrace => mark_closer(partners, first, marks, left, class),
        PlainWord => mark_word(kind, marks, left, PlainWord, after),
        CapitalWord => mark_word(kind, marks, left, CapitalWord, after),
        TypeWord => mark_code(partners, kind, before, marks, left, TypeWord, after),
        Comma => mark_code(partners, kind, before, marks, left, Comma, after),
        Semicolon => mark_code(partners, kind, before, marks, left, Semicolon, after),
        Literal => mark_code(partners, kind, before, marks, left, Literal, after),
        Text => mark_code(partners, kind, before, marks, left, Text, after),
        Arrow => mark_code(partners, kind, before, marks, left, Arrow, after),
        Star => mark_code(partners, kind, before, marks, left, Star, after),
        Equals => mark_code(partners, kind, before, marks, left, Equals, after),
        If => mark_code(partners, kind, before, marks, left, If, after),
        Else | For | While | Case | Jump | Struct | SizeWord => {
            mark_still(marks, left, class, Role::Word)
        }
        Divide | Shift | Relation | Caret | Or => mark_still(marks, left, class, Role::Binary),
        Hash => mark_code(partners, kind, before, marks, left, Hash, after),
        Point => mark_code(partners, kind, before, marks, left, Point, after),
        Ampersand => mark_code(partners, kind, before, marks, left, Ampersand, after),
        Bar => mark_code(partners, kind, before, marks, left, Bar, after),
        Equality => mark_code(partners, kind, before, marks, left, Equality, after),
        _ => mark_code(partners, kind, before, marks, left, class, after),
    }
    true
}
