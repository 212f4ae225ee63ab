//! The nodes of a search, found by their layouts.
//!
//! A [`Node`] is a layout that was met, with its least known cost and where that way to it comes from. Those of as many
//! tokens are on a chain, the one that was met last first. [`find`] looks for a layout's node on its chain; where that
//! is long, in a group that lists the nodes of some numbers of tokens by the digests of their layouts. [`add`] adds a
//! node, which [`list_where_many`] lists before where its chain gets long. It knows nothing of lines and their steps.
#![tactic(auto)]

mod adding;
mod finding;
mod node;

pub use adding::{add, list_where_many};
pub use finding::{end_at, find};
pub use frame_store::NoMemory;
pub use node::{Node, open_node, rank_at};
