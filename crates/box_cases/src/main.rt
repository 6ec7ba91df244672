// Answers the cases on standard input. What it writes is held to the stored answers.
#![tactic(auto)]

ghost use Rattle.std.specs.Prelude.{◌≡◌, length};
ghost use Rattle.std.specs.Io.{ReadsAtMost};

use std::io;
use std::io::Read;

// How many bytes of the input were read, of as many as there is room for.
fn read_full(input: &mut impl Read, room: &mut [u8]) -> io::Result<usize>
    ensures { ReadsAtMost result room.new }
{
    let mut done = 0;
    while done < room.len() {
        let n = input.read(&mut room[done..])?;
        if n == 0 {
            break;
        }
        done += n;
    }
    Ok(done)
}

// The answers to all cases of the input, as far as there is room for its text.
fn answered(rt: &(impl Input + Print), room: &mut [u8]) -> io::Result<()>
    ensures { length room.new ≡ length room.old }
{
    let n = read_full(&mut rt.reader(), room)?;
    case_lines::all(rt, &room[..n])
}

fn main(rt: HostRuntime) -> io::Result<()> {
    answered(&rt, &mut case_lines::room())
}
