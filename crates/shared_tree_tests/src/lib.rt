//! Tests of `shared_tree` from outside: the shared tree, its seats and its pipes, as its users see them.
#![tactic(auto)]

#[cfg(test)]
mod tests;
