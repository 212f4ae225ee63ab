//! The words of the language, each found by its first and last letters and its length.

ghost use Rattle.std.specs.Prelude.{◌≡◌, ◌∷◌, ◌<◌, ℕ, List, [], get_or, length, map};
ghost use Rattle.token_classes.specs.Inside.{key_of, no_row};
ghost use Rattle.token_classes.specs.Words.{class_in, words};
ghost use Rattle.token_classes.specs.declared.class.TokenClass.{TokenClass};

use crate::class::TokenClass;

/// The words of the language, behind a row that no word has.
const ROWS: [(&[u8], TokenClass); 50] = [
    (b"", TokenClass::Other),
    (b"if", TokenClass::If),
    (b"else", TokenClass::Else),
    (b"for", TokenClass::For),
    (b"while", TokenClass::While),
    (b"do", TokenClass::Do),
    (b"switch", TokenClass::Switch),
    (b"case", TokenClass::Case),
    (b"default", TokenClass::Default),
    (b"return", TokenClass::Return),
    (b"goto", TokenClass::Goto),
    (b"break", TokenClass::Jump),
    (b"continue", TokenClass::Jump),
    (b"struct", TokenClass::Struct),
    (b"union", TokenClass::Union),
    (b"enum", TokenClass::Enum),
    (b"extern", TokenClass::Extern),
    (b"sizeof", TokenClass::SizeWord),
    (b"_Alignof", TokenClass::SizeWord),
    (b"_Alignas", TokenClass::CallWord),
    (b"_Generic", TokenClass::CallWord),
    (b"_Static_assert", TokenClass::CallWord),
    (b"typeof", TokenClass::CallWord),
    (b"__typeof__", TokenClass::CallWord),
    (b"__attribute__", TokenClass::CallWord),
    (b"asm", TokenClass::AsmWord),
    (b"__asm__", TokenClass::AsmWord),
    (b"__asm", TokenClass::AsmWord),
    (b"void", TokenClass::TypeWord),
    (b"char", TokenClass::TypeWord),
    (b"short", TokenClass::TypeWord),
    (b"int", TokenClass::TypeWord),
    (b"long", TokenClass::TypeWord),
    (b"float", TokenClass::TypeWord),
    (b"double", TokenClass::TypeWord),
    (b"signed", TokenClass::TypeWord),
    (b"unsigned", TokenClass::TypeWord),
    (b"_Bool", TokenClass::TypeWord),
    (b"_Complex", TokenClass::TypeWord),
    (b"const", TokenClass::TypeWord),
    (b"volatile", TokenClass::Volatile),
    (b"restrict", TokenClass::TypeWord),
    (b"static", TokenClass::TypeWord),
    (b"typedef", TokenClass::TypeWord),
    (b"register", TokenClass::TypeWord),
    (b"inline", TokenClass::Inline),
    (b"auto", TokenClass::TypeWord),
    (b"_Atomic", TokenClass::TypeWord),
    (b"_Noreturn", TokenClass::TypeWord),
    (b"_Thread_local", TokenClass::TypeWord),
];

/// Of each key, the row of the word that has it: the first where none has. No two words of the language have the
/// same.
const ROW_OF_KEY: [u8; 256] = [
    0, 0, 0, 0, 44, 0, 41, 0, 0, 0, 0, 0, 0, 0, 0, 0, 0, 48, 0, 0, 0, 0, 0, 1, 0, 0, 0, 5, 0, 0, 0,
    0, 0, 0, 0, 0, 0, 0, 23, 0, 0, 0, 0, 0, 0, 0, 0, 0, 0, 0, 0, 0, 0, 0, 0, 0, 0, 0, 25, 0, 0, 0,
    0, 0, 0, 0, 0, 0, 3, 0, 0, 0, 0, 31, 0, 0, 0, 0, 0, 0, 0, 0, 0, 0, 0, 0, 0, 0, 7, 0, 2, 0, 0,
    0, 0, 0, 46, 0, 15, 32, 0, 29, 10, 0, 0, 0, 28, 0, 0, 0, 0, 0, 0, 0, 0, 0, 0, 0, 0, 0, 0, 0, 0,
    0, 0, 0, 0, 37, 27, 11, 0, 0, 0, 0, 0, 0, 0, 0, 0, 39, 0, 0, 33, 0, 4, 0, 24, 0, 0, 0, 0, 14,
    0, 0, 0, 30, 0, 0, 0, 49, 0, 34, 0, 0, 0, 0, 45, 0, 0, 0, 0, 16, 0, 0, 42, 35, 0, 17, 22, 6, 0,
    0, 0, 0, 9, 0, 26, 0, 0, 0, 47, 13, 0, 0, 0, 0, 0, 0, 0, 0, 0, 0, 0, 21, 0, 0, 0, 0, 0, 0, 0,
    0, 8, 0, 43, 0, 0, 0, 0, 0, 0, 0, 0, 0, 0, 0, 20, 0, 0, 18, 0, 0, 12, 0, 0, 0, 0, 0, 0, 0, 0,
    0, 19, 0, 0, 0, 0, 38, 0, 36, 0, 40, 0, 0, 0, 0,
];

/// What a word is looked for by.
#[inline(always)]
fn key_of(spelled: &[u8]) -> usize
    requires { 0 < length spelled.now }
    ensures value { result ≡ key_of spelled.now }
    ensures small { result < 256 }
{
    let first = spelled[0] as usize;
    let last = spelled[spelled.len() - 1] as usize;
    (first + last + spelled.len() % 16 * 36) % 256
}

/// The row that a table tells of a key.
#[inline(always)]
fn row_of(rows: &[u8; 256], key: usize) -> usize
    requires { key < 256 }
    ensures { result ≡ get_or rows.now key 0 }
{
    rows[key] as usize
}

/// The word and the class of a row.
#[inline(always)]
fn row_at<'w>(rows: &[(&'w [u8], TokenClass); 50], row: usize) -> (&'w [u8], TokenClass)
    requires { row < 50 }
    ensures { (s : List ℕ) (other : TokenClass) →
        class_in (get_or (map (λ r. (r.0.now, r.1)) rows.now) row no_row ∷ []) s other
        ≡ class_in ((result.0.now, result.1) ∷ []) s other }
{
    rows[row]
}

/// The only word of the language that these bytes can be, with its class.
#[inline(always)]
pub(crate) fn candidate(spelled: &[u8]) -> (&'static [u8], TokenClass)
    requires { 0 < length spelled.now }
    ensures { (other : TokenClass) →
        class_in ((result.0.now, result.1) ∷ []) spelled.now other ≡ class_in words spelled.now other }
{
    row_at(&ROWS, row_of(&ROW_OF_KEY, key_of(spelled)))
}
