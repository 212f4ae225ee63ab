//! Words that are at fault, and their refusals.

ghost use Rattle.std.specs.Prelude.{ℕ, List, Err};
ghost use Rattle.command_words.specs.Said.{Reads};
ghost use Rattle.command_refusals.specs.Counts.{Faults, Raises};
ghost use Rattle.command_refusals.specs.Words.{AreWordsRefused};

use crate::refusal::Refusal;
use command_words::WordsFault;

/// The refusal of words that are at fault.
pub fn refusal_of<'w>(fault: WordsFault<'w>) -> Refusal<'w>
    ensures cause { (words : List (List ℕ)) → Reads words (Err fault.entry) → AreWordsRefused words result }
    ensures counts { (f : Faults) → Raises result f f }
{
    match fault {
        WordsFault::Form => Refusal::BadWords,
        WordsFault::BadLines { word, fault } => Refusal::BadLines { word, fault },
        WordsFault::BadStates(word) => Refusal::BadStates(word),
        WordsFault::NoInput => Refusal::NoInput,
        WordsFault::ManyFiles => Refusal::ManyFiles,
        WordsFault::BadGenerate(word) => Refusal::BadGenerate(word),
        WordsFault::GenerateBeside => Refusal::GenerateBeside,
        WordsFault::NoMemory => Refusal::NoMemory,
    }
}
