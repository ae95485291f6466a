//! Worked examples of the definitions: scripts and pieces of code, each with the exact bytes or
//! numbers that it computes to.
//!
//! They stand in `specs/`; there is nothing to run.
#![tactic(auto)]
