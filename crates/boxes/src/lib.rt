// The boxes of a media file (ISO/IEC 14496-12), found one after the other in the bytes that were read of it.
#![tactic(auto)]

ghost use Rattle.std.specs.Prelude.{◌≡◌, ◌+◌, ◌≤◌, ◌<◌, length, get_or};
ghost use Rattle.boxes.specs.Boxes.{word_at, long_word_at, whole_of, wanted, fitted, long_box, box_at, walked};
ghost use Rattle.boxes.specs.Placed.{Placed};

// A box by its header: where it starts, its four letters as one number, how long the header is, and how large the whole box claims to be.
#[derive(Clone, Copy)]
pub struct Header {
    pub at: u64,
    pub kind: u32,
    pub length: u64,
    pub size: u64,
}

// What a walk comes to.
#[derive(Clone, Copy)]
pub enum Walked {
    // the box that was looked for, which lies within the room
    Found(Header),
    // a box that claims more than the room that is left
    Beyond(Header),
    // a box that claims less than its own header
    Small(Header),
    // room is left from here on for a box whose header was not read to its end
    Further(u64),
    // fewer bytes are left from here on than a header takes
    Cut(u64),
    // the boxes fill the room
    End,
}

// The number that four bytes write, the high one first.
#[tactic(auto, unfolding(crate::specs::Boxes::word_at))]
pub fn word_at(part: &[u8], at: u64) -> u32
    requires { at + 4 ≤ length part.now }
    ensures { result ≡ word_at part.now at }
{
    let i = at as usize;
    u32::from_be_bytes([part[i], part[i + 1], part[i + 2], part[i + 3]])
}

// The number that eight bytes write.
fn long_word_at(part: &[u8], at: u64) -> u64
    requires { at + 8 ≤ length part.now }
    ensures { result ≡ long_word_at part.now at }
{
    (u64::from(word_at(part, at)) << 32) | u64::from(word_at(part, at + 4))
}

// Whether a box is looked for, where none stands for a box of any kind.
fn is_wanted(kind: Option<u32>, found: u32) -> bool
    ensures { result ≡ wanted kind found }
{
    kind.is_none_or(|k| k == found)
}

// A size of 0 means all that is left.
fn whole_of(size: u32, left: u64) -> u64
    ensures { result ≡ whole_of size left }
{
    if size == 0 { left } else { u64::from(size) }
}

// Whether the claim of a header holds.
#[tactic(auto, unfolding(crate::specs::Boxes::fitted))]
fn fitted(h: Header, left: u64) -> Walked
    ensures { result ≡ fitted h left }
{
    if h.size < h.length {
        Walked::Small(h)
    } else if left < h.size {
        Walked::Beyond(h)
    } else {
        Walked::Found(h)
    }
}

// The box at a position whose size is written in 64 bits, after the letters.
#[tactic(auto, unfolding(crate::specs::Boxes::long_box))]
fn long_box(part: &[u8], at: u64, room: u64, kind: u32) -> Walked
    requires { at ≤ room }
    ensures { result ≡ long_box part.now room at kind }
{
    let left = room - at;
    if left < 16 {
        return Walked::Cut(at);
    }
    if (part.len() as u64) < at + 16 {
        return Walked::Further(at);
    }
    let size = long_word_at(part, at + 8);
    let h = Header {
        at,
        kind,
        length: 16,
        size,
    };
    fitted(h, left)
}

// The box at a position.
#[tactic(auto, unfolding(crate::specs::Boxes::box_at))]
fn box_at(part: &[u8], at: u64, room: u64) -> Walked
    requires { at ≤ room }
    ensures { result ≡ box_at part.now room at }
{
    let left = room - at;
    if left == 0 {
        return Walked::End;
    }
    if left < 8 {
        return Walked::Cut(at);
    }
    if (part.len() as u64) < at + 8 {
        return Walked::Further(at);
    }
    let written = word_at(part, at);
    let kind = word_at(part, at + 4);
    if written == 1 {
        return long_box(part, at, room, kind);
    }
    let size = whole_of(written, left);
    let h = Header {
        at,
        kind,
        length: 8,
        size,
    };
    fitted(h, left)
}

// The first box of a kind, or of any. `part` are the bytes that were read from where the first box starts, and `room` is how many bytes there are from there
// to the end of what holds the boxes.
pub fn walk(part: &[u8], room: u64, kind: Option<u32>) -> Walked
    ensures value { result ≡ walked part.now room kind }
    ensures placed { Placed (length part.now) room result }
{
    let mut at: u64 = 0;
    loop {
        let seen = box_at(part, at, room);
        let Walked::Found(h) = seen else {
            return seen;
        };
        if is_wanted(kind, h.kind) {
            return seen;
        }
        at = h.at + h.size;
    }
}
