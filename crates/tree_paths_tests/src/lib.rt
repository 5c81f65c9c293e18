//! Tests of `tree_paths` from outside: paths, limits and refusals, as its users see them.
#![tactic(auto)]

#[cfg(test)]
mod tests;
