//! Tests of `tree_ops` from outside: calls on files, as its users see them.
#![tactic(auto)]

#[cfg(test)]
mod tests;
