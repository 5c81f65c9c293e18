//! Tests of `watch_table` from outside: masks, watches and limits, as its users see them.
#![tactic(auto)]

#[cfg(test)]
mod refused;
#[cfg(test)]
mod tests;
