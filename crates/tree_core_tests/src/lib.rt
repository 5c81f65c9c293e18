//! The tests of `tree_core` from outside, in a crate of their own, as its users see it.
#![tactic(auto)]

#[cfg(test)]
mod tests;
