//! What C opened: a tree, and the text of the last line that it ran.

use tree_core::State;

/// A tree, with the text of the last line of a script that was run on it.
#[derive(Drop)]
pub struct Opened {
    pub state: State,
    pub text: Vec<u8>,
}
