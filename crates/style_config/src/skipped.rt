// The keys of a configuration that are skipped.
ghost use Rattle.std.specs.Prelude.{◌≡◌};

use fmt_ports::Name;
use std::marker::Model;

/// A key that no style has.
#[derive(Drop)]
pub struct SkippedKey {
    /// The line on which it stands, counted from 1.
    pub line: u32,
    /// Its name; a key that stands under another has both names, as `BraceWrapping.AfterClass`.
    pub key: Name,
}

/// The keys of a configuration that no style has, in their order.
#[derive(Drop)]
pub struct Skipped {
    keys: Vec<SkippedKey>,
}

impl Model for Skipped {
    ghost use Rattle.std.specs.Prelude.{List};
    ghost use Rattle.style_config.specs.declared.skipped.SkippedKey.{SkippedKey};

    ghost Value = { List SkippedKey };

    ghost view = { λ skipped. skipped.keys.items };
}

impl Skipped {
    /// These keys.
    pub(crate) fn new(keys: Vec<SkippedKey>) -> Skipped
        ensures { result ≡ keys.items }
    {
        Skipped { keys }
    }

    /// The keys, in the order of their lines.
    pub fn keys(&self) -> &[SkippedKey]
        ensures { result.now ≡ self.now }
    {
        self.keys.as_slice()
    }
}
