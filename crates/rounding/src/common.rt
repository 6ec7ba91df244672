// What divides two numbers.
ghost use Rattle.std.specs.Prelude.{◌<◌};
ghost use Rattle.rounding.specs.Common.{Common};

// The largest number that divides both. That it divides is all that is said of it.
pub fn common(a: u64, b: u64) -> u64
    requires { 0 < a }
    ensures { Common a b result }
{
    // A while loop: Euclid's steps go by what is left over, and no index counts them.
    let mut x = a;
    let mut y = b;
    while y != 0 {
        (x, y) = (y, x % y);
    }
    x
}
