// Quotients by a number that is known long before what it divides, with no division: a multiplication by a number that stands
// for it and a shift come close from below, and what is left over says how far below.
ghost use Rattle.std.specs.Prelude.{◌≡◌, ◌/◌, ◌<◌, min};
ghost use Rattle.sample.specs.Depth.{past_samples};
ghost use Rattle.rounding.specs.Quotient.{shift_of, divisor_of, Divides};

// A divisor, and 2^48 over its leading bits: `shift` says how many others there are. `Divides` is no ghost field, since the definition `divisor_of`
// makes one of any number.
#[derive(Clone, Copy)]
pub struct Divisor {
    pub over: u64,
    pub shift: u64,
    pub factor: u64,
}

// How many bits to leave out, so that 20 to 30 stay.
#[tactic(auto, unfolding(crate::specs::Quotient::shift_of))]
fn shift_of(over: u64) -> u64
    ensures { result ≡ shift_of over }
{
    if over < 1 << 30 {
        0
    } else if over < 1 << 40 {
        10
    } else if over < 1 << 50 {
        20
    } else {
        30
    }
}

// What stands for a divisor.
pub fn divisor_of(over: u64) -> Divisor
    requires { 0 < over }
    ensures { result ≡ divisor_of over }
{
    let shift = shift_of(over);
    let leading = ((over - 1) >> shift) + 1;
    let factor = (1 << 48) / leading;
    Divisor {
        over,
        shift,
        factor,
    }
}

// n over the divisor, rounded down, or the first number past every sample where that is more.
pub fn quotient(n: u64, by: Divisor) -> u64
    requires { Divides by }
    ensures { result ≡ min (n / by.over) past_samples }
{
    if by.over <= n / sample::PAST_SAMPLES {
        return sample::PAST_SAMPLES;
    }
    let mut found = ((n >> by.shift) * by.factor) >> 48;
    let mut rest = n - found * by.over;
    // A while loop: a step or none corrects what was found, and rest / over would be the division that is left out here.
    while by.over <= rest {
        rest -= by.over;
        found += 1;
    }
    found
}
