//! The way along the items of a part.

ghost use Rattle.std.specs.Prelude.{◌≡◌, ◌<◌, ◌&&◌, ◌||◌, false, not, length, if◌then◌else◌, Some, None};
ghost use Rattle.token_arena.specs.Gaps.{Contents, item_began};
ghost use Rattle.token_classes.specs.Classes.{is_else, is_open_brace, is_open_round, is_semicolon};
ghost use Rattle.token_classes.specs.declared.class.TokenClass.TheVariants.{OpenBrace};
ghost use Rattle.part_walk.specs.Places.{place_in};
ghost use Rattle.part_walk.specs.Reading.{GoesOn};
ghost use Rattle.part_walk.specs.Steps.{body_passed, ends_before_brace, group_passed, may_end, passed, plain_passed};
ghost use Rattle.part_walk.specs.Walk.{behind_group, behind, is_end, is_between, asked_at, asked_in_body};
ghost use Rattle.part_walk.specs.Walk.{is_apart, is_body, is_commented, next_declaration, begins_outside, opening};
ghost use Rattle.part_walk.specs.Walk.{start, is_label, is_leading, begins_statement, begins_behind};
ghost use Rattle.part_walk.specs.Walk.{begins_block, ends_statement, begins_members_in_body, begins_members_outside};
ghost use Rattle.part_walk.specs.Walk.{heads_structure, is_behind_if, headed_by, goes_on_with, kept_begun, next_begun};
ghost use Rattle.part_walk.specs.Walk.{next_held, next_last, end_in_body, parts_statements, past_comment, in_body};
ghost use Rattle.part_walk.specs.Walk.{in_group, outside, reading, entered, left};

use crate::bodies::{BodyKind, BodyPlace, Head};
use crate::classes::{is_label, is_leading, is_record};
use line_tokens::TokenId;
use token_arena::TokenArena;
use token_classes::TokenClass;

/// What stands directly before a place, outside brackets. In a group it is what will stand before the place behind it.
#[derive(Clone, Copy)]
pub enum Before {
    /// A word that may be a function's name.
    Name,
    /// The group directly behind such a word.
    Parameters,
    /// The `;` that ends a declaration.
    Semicolon,
    /// The `}` of a function's body.
    Body,
    /// Comments behind the end of a declaration, or nothing.
    Between,
    /// The word `extern`.
    Extern,
    /// The string directly behind that word, as a linkage specification of C++ begins.
    Linkage,
    /// Anything else.
    Other,
}

/// What is known of the declaration outside brackets that is read.
#[derive(Clone, Copy)]
pub struct Declaration {
    /// What stands before the next token of it.
    pub before: Before,
    /// An `=` or `return` stands in it, behind the last `;`.
    pub assigned: bool,
    /// A comment stands in it behind its first token.
    pub commented: bool,
}

/// What the next item of a part stands in.
#[derive(Clone, Copy)]
pub enum Around {
    /// No bracket.
    Outside,
    /// A body whose head is known, and no other bracket in it.
    Body,
    /// Another group.
    Group,
}

/// What a `(` stands directly behind.
#[derive(Clone, Copy)]
pub enum Headed {
    /// `if`
    If,
    /// Another word of a control statement.
    Control,
    /// Another token.
    Other,
}

/// The last token that is no comment, and what is known of the statement that it may end. In a group that token is its
/// last bracket.
#[derive(Clone, Copy)]
pub struct LastToken {
    /// Its class.
    pub class: TokenClass,
    /// Its number.
    pub id: u32,
    /// A directive stands between it and a comment behind it.
    pub apart: bool,
    /// A comment stands in the statement, or did in one before, where few items of the part were read.
    pub commented: bool,
    /// What the last `(` of a body stood directly behind.
    pub headed: Headed,
    /// The last `{` of a body that began a block.
    pub block: Option<u32>,
    /// It is `struct` or `union`, or a later part of the head of one: a word, or a group directly behind a word with a
    /// group.
    pub structure: bool,
    /// Behind so many statements more a part may end: a short label may take statements onto its row.
    pub held: u32,
}

/// A token of a part.
#[derive(Clone, Copy)]
pub struct PartToken {
    /// Its number.
    pub id: u32,
    /// Its place in the part.
    pub place: u32,
}

/// How a statement or declaration began.
#[derive(Clone, Copy)]
pub enum Begun {
    /// It isn't known.
    Unknown,
    /// With this token, or one with which a later one began.
    With(PartToken),
    /// Behind the body of an `if` with this head, which an `else` may follow.
    Behind(Head),
}

/// How far a part has been read.
#[derive(Clone, Copy)]
pub struct Walk {
    /// How many of its items were read.
    pub place: u32,
    /// The declaration outside brackets.
    pub declaration: Declaration,
    /// Behind so many items the part ends, if a declaration or statement begins with the next item that is no comment.
    pub asked: Option<u32>,
    /// How the statement of the innermost body began that is read, or outside brackets the part, or what stands behind
    /// the last directive between two of its declarations.
    pub begun: Begun,
    /// The item behind the last one that was read. In a group it is the one behind its last bracket.
    pub behind: u32,
    /// The last token.
    pub last: LastToken,
}

/// What an item tells.
#[derive(Clone, Copy)]
pub enum Outcome {
    /// The part ends outside brackets, behind so many of its items.
    EndsOutside(u32),
    /// The part ends in a body, behind so many of its items.
    EndsInBody(u32),
    /// No part ends behind it.
    Never,
    /// The part goes on behind it.
    GoesOn,
}

impl Before {
    /// Whether a declaration ends there.
    fn is_end(self) -> bool
        ensures { result ≡ is_end self }
    {
        matches!(self, Before::Semicolon | Before::Body)
    }

    /// Whether no declaration goes on there.
    fn is_between(self) -> bool
        ensures { result ≡ is_between self }
    {
        matches!(self, Before::Semicolon | Before::Body | Before::Between)
    }
}

/// Whether an item began its line in the input.
pub(crate) fn item_began(arena: &TokenArena<'_, '_>, id: TokenId) -> bool
    requires { id.0 < length arena.now.tokens }
    ensures { result ≡ item_began arena.now id.0 }
{
    arena.get(id).gap.began
}

impl Declaration {
    /// What stands behind a group with this opener.
    fn behind_group(&self, opener: TokenClass) -> Before
        ensures { result ≡ behind_group self.now opener }
    {
        match self.before {
            Before::Name if opener.is_open_round() => Before::Parameters,
            Before::Parameters if opener.is_open_brace() && !(self.assigned || self.commented) => {
                Before::Body
            }
            _ => Before::Other,
        }
    }

    /// What stands behind a token, or behind the group that it opens.
    pub(crate) fn behind(&self, class: TokenClass) -> Before
        ensures { result ≡ behind self.now class }
    {
        if class.is_opener() {
            return self.behind_group(class);
        }
        if class.is_semicolon() {
            return Before::Semicolon;
        }
        if class.is_comment() && self.before.is_between() {
            return Before::Between;
        }
        if class.is_plain() {
            return Before::Name;
        }
        if class.is_extern() {
            Before::Extern
        } else if class.is_text() && matches!(self.before, Before::Extern) {
            Before::Linkage
        } else {
            Before::Other
        }
    }

    /// Whether a comment stands behind the first token of the declaration that goes on or ends behind this one.
    fn is_commented(&self, before: Before, class: TokenClass) -> bool
        ensures { result ≡ is_commented self.now before class }
    {
        if matches!(before, Before::Between) {
            return false;
        }
        let earlier = !self.before.is_between() && self.commented;
        earlier || class.is_comment()
    }

    /// Whether a comment stands in it, where the next item of a body or group is one.
    fn is_commented_inside(&self) -> bool
        ensures { result ≡ (self.now.commented || not (is_body self.now.before)) }
    {
        self.commented || !matches!(self.before, Before::Body)
    }

    /// Behind the next token, which stands outside brackets.
    #[inline(always)]
    fn next(&self, class: TokenClass) -> Declaration
        ensures { result ≡ next_declaration self.now class }
    {
        let before = self.behind(class);
        Declaration {
            before,
            assigned: !class.is_semicolon() && (self.assigned || class.is_assigning()),
            commented: self.is_commented(before, class),
        }
    }
}

/// How many items a part has at least that ends in a body behind which a directive stands.
const LEAST_APART: u32 = 64;
/// How many items a part has at least that ends anywhere else in a body.
pub const LEAST_IN_ROW: u32 = 512;
/// Behind so many statements from a label on a part may end.
const HELD: u32 = 3;

/// This token, where nothing is known of a statement.
fn opening(id: TokenId, class: TokenClass) -> LastToken
    ensures { result ≡ opening id.0 class }
{
    LastToken {
        class,
        id: id.0,
        apart: false,
        commented: false,
        headed: Headed::Other,
        block: None,
        structure: false,
        held: 0,
    }
}

/// Before the first item of a part, which begins there.
pub fn start(begins: Option<BodyPlace<'_>>) -> Walk
    ensures { result ≡ start (place_in begins.entry) }
{
    let (declaration, class) = match begins {
        Some(place) => (place.declaration, TokenClass::OpenBrace),
        None => {
            let none = Declaration {
                before: Before::Between,
                assigned: false,
                commented: false,
            };
            (none, TokenClass::Nothing)
        }
    };
    Walk {
        place: 0,
        declaration,
        asked: None,
        begun: Begun::Unknown,
        behind: 0,
        last: opening(TokenId(0), class),
    }
}

/// Behind how many items the part ends, if a declaration begins with this item or behind it and comments.
pub(crate) fn asked_at(
    arena: &TokenArena<'_, '_>,
    walk: &Walk,
    id: TokenId,
    class: TokenClass,
) -> Option<u32>
    requires { id.0 < length arena.now.tokens }
    ensures { result ≡ asked_at arena.now walk.now id.0 class }
{
    let declaration = walk.declaration;
    let asked = match walk.asked {
        Some(place) => place,
        None if declaration.before.is_end() && (class.is_comment() || !declaration.commented) => {
            walk.place
        }
        None => return None,
    };
    if item_began(arena, id) {
        Some(asked)
    } else {
        None
    }
}

impl Headed {
    /// What a `(` stands behind that follows such a token.
    fn by(class: TokenClass) -> Headed
        ensures { result ≡ headed_by class }
    {
        if class.is_if() {
            Headed::If
        } else if class.is_control() {
            Headed::Control
        } else {
            Headed::Other
        }
    }
}

/// The classes of tokens that change what is known of a body's statement by their class, a bit for each.
const CHANGING: u64 = 1 << (TokenClass::OpenBrace as u64)
    | 1 << (TokenClass::OpenRound as u64)
    | 1 << (TokenClass::Semicolon as u64)
    | 1 << (TokenClass::Case as u64)
    | 1 << (TokenClass::Default as u64);

/// Whether a token may change more of what is known of a statement than which token was the last.
#[inline(always)]
fn changes_more(class: TokenClass) -> bool
    ensures brace { result ≡ false → is_open_brace class ≡ false }
    ensures round { result ≡ false → is_open_round class ≡ false }
    ensures semicolon { result ≡ false → is_semicolon class ≡ false }
    ensures label { result ≡ false → is_label class ≡ false }
{
    (CHANGING >> class as u64) % 2 == 1
}

impl LastToken {
    /// Whether a statement of a body ends with it.
    fn is_end(&self) -> bool
        ensures { result ≡ ends_statement self.now }
    {
        self.class.is_semicolon() || (self.class.is_close_brace() && self.block.is_some())
    }

    /// Whether a statement begins behind it.
    pub(crate) fn is_begin(&self) -> bool
        ensures { result ≡ begins_behind self.now }
    {
        self.is_end() || self.class.is_open_brace()
    }

    /// Whether a statement may begin with the next token, which has this class: an `else`, a `while` and a `;` behind a
    /// `}` may go on with the one before, and with a closing bracket none begins.
    fn begins_statement(&self, class: TokenClass) -> bool
        ensures { result ≡ begins_statement self.now class }
    {
        let tail = class.is_semicolon() && self.class.is_close_brace();
        let goes_on = class.is_else() || class.is_while() || tail;
        !goes_on && (class.is_opener() || !class.is_bracket())
    }

    /// Whether a `{` of a body that stands behind it begins a block.
    pub(crate) fn begins_block(&self) -> bool
        ensures { result ≡ begins_block self.now }
    {
        self.class.is_semicolon()
            || self.class.is_open_brace()
            || self.class.is_close_brace()
            || self.class.is_else()
            || self.class.is_do()
            || (self.class.is_close_round() && !matches!(self.headed, Headed::Other))
    }

    /// Whether it ends the condition of an `if`.
    pub(crate) fn is_behind_if(&self) -> bool
        ensures { result ≡ is_behind_if self.now }
    {
        self.class.is_close_round() && matches!(self.headed, Headed::If)
    }

    /// Whether this token goes on with the head of a structure or union, or begins one.
    fn heads_structure(&self, class: TokenClass) -> bool
        ensures { result ≡ heads_structure self.now class }
    {
        if !self.structure {
            return is_record(class);
        }
        class.is_word() || (class.is_open_round() && self.class.is_call_word())
    }

    /// Whether a `{` of a body that stands behind it begins the members of a structure or union. An `=` or `return` may
    /// stand before it in the statement: then one directly behind a group may open a list.
    pub(crate) fn begins_members_in_body(&self) -> bool
        ensures { result ≡ begins_members_in_body self.now }
    {
        self.structure && !self.class.is_close_round()
    }

    /// Whether a `{` that stands behind it outside brackets, in this declaration, begins the members of a structure or
    /// union.
    pub(crate) fn begins_members_outside(&self, declaration: Declaration) -> bool
        ensures { result ≡ begins_members_outside self.now declaration }
    {
        self.structure && !(self.class.is_close_round() && declaration.assigned)
    }

    /// Whether a statement that began behind the body of an `if` goes on so with a token.
    fn goes_on_with(&self, class: TokenClass) -> bool
        ensures { result ≡ goes_on_with self.now class }
    {
        (class.is_else() && self.class.is_close_brace() && self.block.is_some())
            || (class.is_if() && self.class.is_else())
    }

    /// Whether a statement that began behind the body of an `if` ends before a token.
    #[inline(always)]
    fn ends_behind_if(&self, class: TokenClass) -> bool
        ensures { result ≡ ((is_leading class || is_else class) && not (goes_on_with self.now class)) }
    {
        (is_leading(class) || class.is_else()) && !self.goes_on_with(class)
    }

    /// How a statement began that goes on with a token.
    #[inline(always)]
    fn kept_begun(&self, class: TokenClass, begun: Begun) -> Begun
        ensures { result ≡ kept_begun self.now class begun }
    {
        match begun {
            Begun::Behind(_) if self.ends_behind_if(class) => Begun::Unknown,
            _ => begun,
        }
    }

    /// Behind how many statements more a part may end, behind the next token of a body.
    #[inline(always)]
    fn next_held(&self, class: TokenClass) -> u32
        ensures { result ≡ next_held self.now.held class }
    {
        if class.is_semicolon() {
            self.held.saturating_sub(1)
        } else if is_label(class) {
            HELD
        } else {
            self.held
        }
    }

    /// What the next token of a body changes by its class but for what it is to the head of a structure.
    #[inline(always)]
    fn pass_changing(&mut self, id: TokenId, class: TokenClass)
        ensures { self.new ≡ record self.old {
          headed = if is_open_round class then headed_by self.old.class else self.old.headed;
          block = if is_open_brace class then (if begins_block self.old then Some id.0 else None) else self.old.block;
          held = next_held self.old.held class;
        } }
    {
        if class.is_open_brace() {
            self.block = if self.begins_block() {
                Some(id.0)
            } else {
                None
            };
        }
        self.headed = if class.is_open_round() {
            Headed::by(self.class)
        } else {
            self.headed
        };
        self.held = self.next_held(class);
    }

    /// Behind the next token of a body, which is no comment, but for what it is to the head of a structure. So many
    /// items of the part were read before it.
    #[inline(always)]
    fn pass(&mut self, place: u32, id: TokenId, class: TokenClass)
        ensures { self.new ≡ record (next_last place self.old id.0 class) { structure = self.old.structure } }
    {
        if place >= LEAST_IN_ROW && self.is_begin() {
            self.commented = false;
        }
        if changes_more(class) {
            self.pass_changing(id, class);
        }
        self.class = class;
        self.id = id.0;
        self.apart = false;
    }
}

impl Walk {
    /// Whether a statement that may have a body begins with the next token of a body.
    #[inline(always)]
    fn begins_leading(&self, class: TokenClass) -> bool
        ensures { result ≡ (is_leading class && begins_behind self.now.last) }
    {
        is_leading(class) && self.last.is_begin()
    }

    /// How the statement began that is read, behind the next token of its body.
    #[inline(always)]
    fn next_begun(&self, id: TokenId, class: TokenClass) -> Begun
        ensures { result ≡ next_begun self.now id.0 class }
    {
        if self.begins_leading(class) {
            return Begun::With(PartToken {
                id: id.0,
                place: self.place,
            });
        }
        self.last.kept_begun(class, self.begun)
    }

    /// Whether an item may tell where the part ends, by what it stands in, or in a body what is known changes in
    /// another way than by its class.
    #[inline(always)]
    pub fn may_end(&self, around: Around, id: TokenId) -> bool
        ensures { result ≡ may_end self.now around id.0 }
    {
        match around {
            Around::Outside => true,
            Around::Body => {
                let near = id.0 == self.behind && self.place < LEAST_IN_ROW;
                !near || self.last.apart || self.last.structure
            }
            Around::Group => false,
        }
    }

    /// Whether a statement of a body ends before this token and one begins with it, and no label holds the part's end:
    /// behind one, three statements end first, or the next one stands here, with no comment on lines of its own before
    /// it.
    fn parts_statements(&self, class: TokenClass) -> bool
        ensures { result ≡ parts_statements self.now class }
    {
        let last = &self.last;
        last.is_end()
            && last.begins_statement(class)
            && (last.held == 0 || (is_label(class) && self.asked.is_none()))
    }

    /// Behind how many items the part ends, where this token of a body tells so.
    pub(crate) fn end_in_body(&self, id: TokenId, class: TokenClass) -> Option<u32>
        ensures { result ≡ end_in_body self.now id.0 class }
    {
        if self.is_apart(id) {
            if self.place < LEAST_APART || !self.parts_statements(class) {
                return None;
            }
            return Some(self.asked.unwrap_or(self.place));
        }
        if self.place < LEAST_IN_ROW || !self.parts_statements(class) {
            return None;
        }
        let last = &self.last;
        let follows = last.id < id.0 && id.0 - last.id == 1;
        if follows && !last.commented {
            Some(self.place)
        } else {
            None
        }
    }

    /// Whether a directive, or a branch that isn't seen, stands between the last token of the body and this item.
    fn is_apart(&self, id: TokenId) -> bool
        ensures { result ≡ is_apart self.now id.0 }
    {
        self.last.apart || id.0 != self.behind
    }

    /// Behind how many items the part may end, with this comment of a body.
    fn asked_in_body(&self, arena: &TokenArena<'_, '_>, id: TokenId) -> Option<u32>
        requires { id.0 < length arena.now.tokens }
        ensures { result ≡ asked_in_body arena.now self.now id.0 }
    {
        match self.asked {
            Some(place) => Some(place),
            None if self.last.is_end() && item_began(arena, id) => Some(self.place),
            None => None,
        }
    }

    /// Passes the next comment, which stands directly in a body. Comments in a function's body stand on earlier rows
    /// than its `}`.
    pub(crate) fn pass_comment(&mut self, arena: &TokenArena<'_, '_>, id: TokenId)
        requires item { id.0 < length arena.now.tokens }
        requires small { id.0 < 4294967295 }
        requires room { self.old.place < 4294967295 }
        ensures { self.new ≡ past_comment arena.now self.old id.0 }
    {
        self.asked = self.asked_in_body(arena, id);
        self.last.apart = self.is_apart(id);
        self.last.commented = true;
        self.declaration.commented = self.declaration.is_commented_inside();
        self.place += 1;
        self.behind = id.0 + 1;
    }

    /// Passes the next token, which stands directly in a body and is no comment.
    #[inline(always)]
    pub(crate) fn pass_in_body(&mut self, id: TokenId, class: TokenClass)
        requires small { id.0 < 4294967295 }
        requires room { self.old.place < 4294967295 }
        ensures { self.new ≡ in_body self.old id.0 class }
    {
        self.begun = self.next_begun(id, class);
        let structure = self.last.heads_structure(class);
        self.last.pass(self.place, id, class);
        self.last.structure = structure;
        self.asked = None;
        self.place += 1;
        self.behind = id.0 + 1;
    }

    /// Passes the next token, a `(` or `[` that stands directly in a body where no part can end.
    #[inline(always)]
    pub(crate) fn pass_opener(&mut self, id: TokenId, class: TokenClass)
        requires small { id.0 < 4294967295 }
        requires room { self.old.place < 4294967295 }
        ensures { self.new ≡ plain_passed self.old id.0 class }
    {
        self.place += 1;
        self.asked = None;
        self.behind = id.0 + 1;
        self.last.headed = if class.is_open_round() {
            Headed::by(self.last.class)
        } else {
            self.last.headed
        };
        self.last.class = class;
        self.last.id = id.0;
    }

    /// Passes the next item, which stands in a group.
    #[inline(always)]
    pub(crate) fn pass_in_group(&mut self, id: TokenId, class: TokenClass)
        requires small { id.0 < 4294967295 }
        requires room { self.old.place < 4294967295 }
        ensures { self.new ≡ in_group self.old id.0 class }
    {
        self.place += 1;
        if class.is_bracket() {
            self.asked = None;
            self.behind = id.0 + 1;
            self.last.class = class;
            self.last.id = id.0;
            self.last.apart = false;
        } else if class.is_comment() {
            self.last.commented = true;
            self.declaration.commented = self.declaration.is_commented_inside();
        }
    }

    /// Whether the part, or a declaration behind a directive, begins with the next item, which stands outside brackets.
    #[inline(always)]
    pub(crate) fn begins_outside(&self, id: TokenId) -> bool
        ensures { result ≡ begins_outside self.now id.0 }
    {
        self.place == 0 || (id.0 != self.behind && self.declaration.before.is_between())
    }

    /// Passes the next token, which stands outside brackets.
    #[inline(always)]
    pub(crate) fn pass_outside(&mut self, id: TokenId, class: TokenClass, asked: Option<u32>)
        requires small { id.0 < 4294967295 }
        requires room { self.old.place < 4294967295 }
        ensures { self.new ≡ outside self.old id.0 class asked }
    {
        if self.begins_outside(id) {
            self.begun = Begun::With(PartToken {
                id: id.0,
                place: self.place,
            });
        }
        self.declaration = self.declaration.next(class);
        self.asked = if class.is_comment() { asked } else { None };
        self.place += 1;
        self.behind = id.0 + 1;
        self.last.structure = self.last.heads_structure(class);
        self.last.class = class;
        self.last.id = id.0;
    }

    /// Passes tokens in a row that tell nothing, up to this place. The last one has this number and class.
    #[inline(always)]
    pub fn pass_quiet(&mut self, around: Around, place: u32, last: TokenId, class: TokenClass)
        requires { last.0 < 4294967295 }
        ensures { self.new ≡ passed self.old around place last.0 class }
    {
        self.place = place;
        if !matches!(around, Around::Group) {
            self.asked = None;
            self.behind = last.0 + 1;
            self.last.class = class;
            self.last.id = last.0;
        }
    }

    /// Passes the rest of a group, behind its opener, up to this place. Only tokens that tell nothing stand before the
    /// bracket that closes it, which has this number and class.
    #[inline(always)]
    pub fn pass_group(&mut self, place: u32, id: TokenId, class: TokenClass)
        requires { id.0 < 4294967295 }
        ensures { self.new ≡ group_passed self.old place id.0 class }
    {
        self.place = place;
        self.asked = None;
        self.behind = id.0 + 1;
        self.last.class = class;
        self.last.id = id.0;
        self.last.apart = false;
    }

    /// Whether the part ends before a `{`, by what that stands in. Few are asked for, so it is a call of its own.
    #[inline(never)]
    pub fn ends_before_brace(&self, around: Around, id: TokenId) -> bool
        ensures { result ≡ ends_before_brace self.now around id.0 }
    {
        match around {
            Around::Body => self.end_in_body(id, TokenClass::OpenBrace).is_some(),
            Around::Outside | Around::Group => false,
        }
    }

    /// Passes the next token, which is a `{` before which no part ends.
    #[inline(always)]
    pub fn pass_open_brace(&mut self, around: Around, id: TokenId)
        requires small { id.0 < 4294967295 }
        requires room { self.old.place < 4294967295 }
        requires on { ends_before_brace self.old around id.0 ≡ false }
        ensures { (arena : Contents) → GoesOn self.new ≡ reading arena self.old around id.0 OpenBrace }
    {
        match around {
            Around::Outside => self.pass_outside(id, TokenClass::OpenBrace, None),
            Around::Body => self.pass_in_body(id, TokenClass::OpenBrace),
            Around::Group => self.pass_in_group(id, TokenClass::OpenBrace),
        }
    }

    /// Goes into the body that this `{` opens.
    pub(crate) fn enter(&mut self, id: TokenId)
        ensures { self.new ≡ entered self.old id.0 }
    {
        self.begun = Begun::Unknown;
        self.last = opening(id, TokenClass::OpenBrace);
    }

    /// Goes out of the body with this head behind its `}`.
    pub(crate) fn leave(&mut self, head: Head, id: TokenId)
        ensures { self.new ≡ left self.old head id.0 }
    {
        self.begun = match head.kind {
            BodyKind::If => Begun::Behind(head),
            _ => Begun::Unknown,
        };
        self.last = opening(id, TokenClass::CloseBrace);
        self.last.block = match head.kind {
            BodyKind::Members => None,
            _ => Some(head.end.saturating_sub(1)),
        };
    }

    /// Goes past a body with this head whose items stand in a row, up to this place. Its `}` is this token.
    pub fn pass_body(&mut self, head: Head, place: u32, id: TokenId)
        requires { id.0 < 4294967295 }
        ensures { self.new ≡ body_passed self.old head place id.0 }
    {
        self.place = place;
        self.behind = id.0 + 1;
        self.leave(head, id);
    }
}
