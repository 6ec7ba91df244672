// Bytes and numbers, written to standard output.
#![tactic(auto)]

use std::io;

pub fn say(rt: &impl Print, w: &[u8]) -> io::Result<()> {
    rt.write_all(w)
}

pub fn number(rt: &impl Print, n: u64) -> io::Result<()> {
    rt.print(n)
}

pub fn hex(rt: &impl Print, n: u32) -> io::Result<()> {
    print!(rt; "{n:08x}")
}
