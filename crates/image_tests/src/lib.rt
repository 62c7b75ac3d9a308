//! Cases of tests alone: images of ranks, against bytes that were written by hand.
#![tactic(auto)]

#[cfg(test)]
mod tests;
