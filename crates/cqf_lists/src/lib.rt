//! General definitions and lemmas about lists, options and results.
//!
//! `specs/Lists.antt` has the list functions that definitions of other crates use, and `specs/Results.antt` those for
//! steps that may fail. `proofs/` has the lemmas about lists that more than one crate needs, one module per topic. This
//! crate has no code.
#![tactic(auto)]
