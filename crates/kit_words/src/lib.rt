//! The words of the kit that proofs cite most, passed on from one place.
#![tactic(auto)]
