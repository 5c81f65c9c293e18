//! Tests of `event_rules` from outside: what calls raise, as its users see them.
#![tactic(auto)]

#[cfg(test)]
mod tests;
