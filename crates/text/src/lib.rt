// Bytes that people read and type: words and numbers found in a text, and words put into a buffer.
#![tactic(auto)]

pub mod reading;
pub mod writing;
