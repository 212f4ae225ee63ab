//! Lists of frames: those of one line's open brackets, and a store in which equal lists are kept once.
//!
//! A frame has what is known inside a bracket. [`Frames`] are a list of them that a state owns. A
//! [`FrameStore`] has the lists of many states: a node is a frame and the node below it, nodes are only
//! added, and equal lists have one node. [`NodeState`] is a state that names its node; `digest` tells a
//! number by which such states are looked up, and `is_same_place` whether two are one.
//!
//! A [`Group`] finds numbers by digests. It knows nothing of what the numbers stand for.
#![tactic(auto)]

mod frames;
mod group;
mod node;
mod store;

pub use frames::{Frame, Frames, digest_with};
pub use group::{Group, Link};
pub use line_tokens::NoMemory;
pub use node::{Node, NodeState, digest, is_same_place};
pub use store::FrameStore;
