//! What the written text of a document is, and what is true of it: definitions and lemmas alone.
#![tactic(auto)]
