//! Tests of `event_sinks` from outside: sinks, listeners and the settling of books, as its users see them.
#![tactic(auto)]

#[cfg(test)]
mod tests;
