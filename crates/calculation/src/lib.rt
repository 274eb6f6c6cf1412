// Section 5 worked out in whole numbers of 64 bits: loads, columns, figures, the twelve checks and heights.
#![tactic(auto)]

pub mod checks;
pub mod columns;
pub mod constants;
pub mod effects;
pub mod figures;
pub(crate) mod forces;
pub mod heights;
pub mod loads;
