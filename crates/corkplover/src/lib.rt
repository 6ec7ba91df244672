// The box. Every entry point stands in this crate: none has a `requires`, and each contract settles the answer for every input.
#![tactic(auto)]

pub mod exports;
pub mod frame_exports;
pub mod frames;
pub mod judge_exports;
pub mod judging;
pub mod labels;
pub mod meters;
mod packing;
pub mod pixels;
pub mod record_exports;
mod record_packing;
pub mod records;
