//! The budget of the search, as `--states` tells it.

ghost use Rattle.std.specs.Prelude.{◌≡◌, ◌≤◌, IfSome, Some, None, length, if◌then◌else◌};
ghost use Rattle.std.specs.Str.Parse.{digits_value};
ghost use Rattle.command_words.specs.Budget.{are_digits, as_budget, number_of};

/// How many cells the search of a line may have where `--states` doesn't tell it.
pub const DEFAULT_BUDGET: u64 = 2_000_000;

/// The most cells that `--states` may tell.
const MOST_CELLS: u64 = 16_000_000;

/// The number that decimal digits write, if the text is digits alone.
fn digits_in(text: &[u8]) -> Option<u32>
    requires { length text.now ≤ 9 }
    ensures { result ≡ if are_digits text.now then Some (digits_value 10 text.now) else None }
{
    let mut number = 0;
    for byte in text {
        let digit = char::from(*byte).to_digit(10)?;
        number = number * 10 + digit;
    }
    Some(number)
}

/// The number that 1 to 9 decimal digits write.
pub(crate) fn number_of(text: &[u8]) -> Option<u32>
    ensures { result ≡ number_of text.now }
{
    if text.is_empty() || 9 < text.len() {
        return None;
    }
    digits_in(text)
}

/// The budget that a value of `--states` tells.
pub(crate) fn budget_in(word: &str) -> Option<u64>
    ensures is { result ≡ as_budget (number_of word.now) }
    ensures most { IfSome result (λ budget. budget ≤ 16000000) }
{
    let number = u64::from(number_of(word.as_bytes())?);
    if 1 <= number && number <= MOST_CELLS {
        Some(number)
    } else {
        None
    }
}
