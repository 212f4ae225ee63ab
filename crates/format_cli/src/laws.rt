//! The laws of the account. Each stands on the contract of a function that does nothing.

ghost use Rattle.format_cli.specs.Joined.{OutputsAreJoined};

/// Where every FILE was done without `-i`, the output took their formatted texts, joined in order.
pub fn outputs_are_joined()
    ensures { OutputsAreJoined }
{}
