//! Tests of `watchtree_storm` from outside: the storm and its steps, as its users see them.
#![tactic(auto)]

#[cfg(test)]
mod tests;
