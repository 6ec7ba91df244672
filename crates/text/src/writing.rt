// Writing into a buffer, text after text. Each call answers the position after what it wrote; what finds no room is left out.
ghost use Rattle.text.specs.Writing.{Wrote};

pub fn put(out: &mut [u8], at: usize, word: &[u8]) -> usize
    ensures { Wrote out.old at word.now out.new result }
{
    if out.len() <= at {
        return at;
    }
    let n = word.len().min(out.len() - at);
    out[at..at + n].copy_from_slice(&word[..n]);
    at + n
}
