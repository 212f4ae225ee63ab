//! Why words are refused, and how it is told.

ghost use Rattle.std.specs.Prelude.{◌≡◌};

use off_regions::RangeFault;
use std::alloc::AllocError;
use thiserror::Error;

/// How the command is used, with the words that are built: the note on words that are not of its form.
pub const USAGE: &str =
    "usage: clang_format [--style S] [--lines L] [--states N] [-i] [--dry-run] [--Werror] \
    [--dump-config] [--generate N:COUNT] [FILE ..]";

/// Why words are refused. It is shown as the row that tells it.
#[derive(Clone, Copy, Debug, PartialEq, Eq, Error)]
pub enum WordsFault<'w> {
    /// The words are not of the command's form: one is unknown, stands twice, or lacks its value.
    #[error("{USAGE}")]
    Form,
    /// This value of `--lines` is no list of ranges: the fault of its first range at fault.
    #[error("clang_format: --lines {word}: {fault}")]
    BadLines { word: &'w str, fault: RangeFault },
    /// This value of `--states` isn't a number from 1 to 16000000, in 1 to 9 decimal digits.
    #[error("clang_format: --states {0}: not 1 to 16000000")]
    BadStates(&'w str),
    /// `-i` has no FILE to write to, and no `--dump-config` stands beside it.
    #[error("clang_format: -i needs a file")]
    NoInput,
    /// `--lines` stands beside two FILEs or more.
    #[error("clang_format: --lines takes one file")]
    ManyFiles,
    /// This value of `--generate` isn't N:COUNT, N from 0 to 999999999 and COUNT from 1 to 100000, each in 1 to 9
    /// decimal digits.
    #[error("clang_format: --generate {0}: not N:COUNT")]
    BadGenerate(&'w str),
    /// `--generate` stands beside a FILE, `-i` or `--dump-config`.
    #[error("clang_format: --generate takes no file, -i or --dump-config")]
    GenerateBeside,
    /// Memory ran out.
    #[error("clang_format: no memory")]
    NoMemory,
}

impl<'w> From<AllocError> for WordsFault<'w> {
    ghost use Rattle.command_words.specs.declared.fault.WordsFault.TheVariants as WordsFault;

    ghost from_gives = { λ _ e. e ≡ WordsFault.NoMemory };

    fn from(_: AllocError) -> Self {
        WordsFault::NoMemory
    }
}
