//! Cases of tests alone: each public call of the crates that no program uses yet, against values that were worked out by
//! hand, by gcc or by a plain model.
#![tactic(auto)]

#[cfg(test)]
mod tests;
