//! Tests of `record_codec` from outside: names, events and records, as its users see them.
#![tactic(auto)]

#[cfg(test)]
mod tests;
