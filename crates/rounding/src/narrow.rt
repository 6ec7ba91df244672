// Clip in 16 bits, the width of a sample, so that a loop over pixels has as many of them in one vector as can be.
ghost use Rattle.std.specs.Prelude.{◌≡◌, ◌+◌, ◌-◌, ◌^◌, ◌<◌, min, pos, ◌-ℤ◌};
ghost use Rattle.rounding.specs.Rounding.{clip};

// Clip(n + p - q) into 0..top. The sum n + p may take more than 16 bits: n is moved down by what q has over p or else, once it is
// no larger than top, up by what p has over q.
pub fn clip_moved(n: u16, p: u16, q: u16, top: u16) -> u16
    requires { top + (p - q) < 2 ^ 16 }
    ensures { result ≡ clip top (pos (n + p) -ℤ pos q) }
{
    let low = n.saturating_sub(q.saturating_sub(p)).min(top);
    (low + p.saturating_sub(q)).min(top)
}

// The smaller of two that are small: signed numbers are compared at once where unsigned ones are not.
pub fn smaller_of_small(p: u16, q: u16) -> u16
    requires p_bound { p < 2 ^ 15 }
    requires q_bound { q < 2 ^ 15 }
    ensures { result ≡ min p q }
{
    if (q as i16) < (p as i16) { q } else { p }
}

// n - under, brought into 0..top, for numbers that are small. That `top` is small is a clause wherever it stands: a type for it would be opened each time.
pub fn clip_lowered(n: u16, under: u16, top: u16) -> u16
    requires n_bound { n < 2 ^ 15 }
    requires top_bound { top < 2 ^ 15 }
    ensures { result ≡ min (n - under) top }
{
    smaller_of_small(n.saturating_sub(under), top)
}
