//! Worked rows, computed from the definitions: the summary lines of what commands add, and the
//! first refusal.
#![tactic(auto)]

pub mod correspondences_rows;
pub mod integers_rows;
pub mod lists_rows;
