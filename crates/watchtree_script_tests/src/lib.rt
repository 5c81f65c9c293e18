//! Tests of `watchtree_script` from outside: scripts and what they print, as its users see them.
#![tactic(auto)]

#[cfg(test)]
mod tests;
