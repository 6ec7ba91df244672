// The archive for C and for every language that can call C: one export for each of the box's calls on numbers and slices. A crate is
// either a library for other crates or such an archive, so these stand in a crate of their own; each only calls the library.
#![tactic(auto)]

mod exports;
mod frame_exports;
mod judge_exports;
mod record_exports;
