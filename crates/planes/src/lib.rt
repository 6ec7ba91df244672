// Planes and pictures, whatever the setting: which sizes are refused, what fills a plane, and three planes, or a whole picture, that travel together.
#![tactic(auto)]

pub mod fill;
pub mod picture;
pub mod size;
pub mod three;
