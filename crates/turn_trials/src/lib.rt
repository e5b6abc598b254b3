//! Tests of the turn, in a crate of their own, as in `trials`.
#![tactic(auto)]

#[cfg(test)]
mod turns;
