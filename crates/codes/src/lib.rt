// The code points of H.273, in each of its editions: which are assigned, and what is known of each matrix.
#![tactic(auto)]

pub mod edition;
pub mod label;
pub mod matrix;
