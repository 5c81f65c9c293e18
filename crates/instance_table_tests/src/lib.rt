//! Tests of `instance_table` from outside: instances and who watches what, as its users see them.
#![tactic(auto)]

#[cfg(test)]
mod tests;
