// The colour records of a media file, found by where its boxes stand: a file of any size costs its boxes, and not its bytes.
#![tactic(auto)]

pub mod file;
pub mod finding;
pub mod records;
