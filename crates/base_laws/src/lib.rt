//! Lemmas on tests, lists and their places that the standard library lacks, for the proofs of all
//! other crates. No code and no contract.
#![tactic(auto)]
