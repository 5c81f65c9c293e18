//! Tests of `watchtree_command` from outside: what words ask for, what faults say, and the statuses of storms.
#![tactic(auto)]

#[cfg(test)]
mod tests;
