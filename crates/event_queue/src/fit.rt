//! What fits into a read.

/// How many of the oldest records fit into a buffer.
#[derive(Clone, Copy, Debug, PartialEq, Eq)]
pub struct Fit {
    /// How many they are.
    pub count: usize,
    /// How many bytes these take together.
    pub len: usize,
}
