//! What a call moves.

/// What an accepted call moves from one path to another.
#[derive(Clone, Copy, Debug, PartialEq, Eq)]
pub enum Moves {
    /// Nothing: the call is no rename, or both of its paths are of one file.
    Nothing,
    /// What stands at the old path, to the new one.
    Move,
    /// What stands at either path, to the other one.
    Exchange,
}
