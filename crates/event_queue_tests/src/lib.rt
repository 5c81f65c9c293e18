//! Tests of `event_queue` from outside: what is kept, merged and lost, as its users see it.
#![tactic(auto)]

#[cfg(test)]
mod refused;
#[cfg(test)]
mod tests;
