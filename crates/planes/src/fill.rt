// Zeros: over a whole plane, and over a part of one.
ghost use Rattle.std.specs.Prelude.{◌≡◌, ◌≤◌, length};
ghost use Rattle.tables.specs.Table.{zeros, cleared};
ghost use Rattle.planes.specs.Sizes.{Long};

// Every element becomes 0.
fn zero_all(out: &mut [u16])
    ensures { out.new ≡ zeros (length out.old) }
{
    out.fill(0);
}

// Every element from a up to e becomes 0.
fn zero_part(out: &mut [u16], a: usize, e: usize)
    requires { (a ≤ e) × (e ≤ length out.old) }
    ensures { out.new ≡ cleared out.old a e }
{
    zero_all(&mut out[a..e]);
}

// Every element of three planes becomes 0, as after a refusal.
pub fn zero_three(p0: &mut [u16], p1: &mut [u16], p2: &mut [u16])
    ensures p0_after { p0.new ≡ zeros (length p0.old) }
    ensures p1_after { p1.new ≡ zeros (length p1.old) }
    ensures p2_after { p2.new ≡ zeros (length p2.old) }
{
    zero_all(p0);
    zero_all(p1);
    zero_all(p2);
}

// The padding between two rows, in three planes.
pub fn zero_gap(p0: &mut [u16], p1: &mut [u16], p2: &mut [u16], a: usize, e: usize)
    requires a_le_e { a ≤ e }
    requires long { Long e (length p0.old) (length p1.old) (length p2.old) }
    ensures p0_after { p0.new ≡ cleared p0.old a e }
    ensures p1_after { p1.new ≡ cleared p1.old a e }
    ensures p2_after { p2.new ≡ cleared p2.old a e }
{
    zero_part(p0, a, e);
    zero_part(p1, a, e);
    zero_part(p2, a, e);
}

// All that follows the last row, in three planes.
pub fn zero_rest(p0: &mut [u16], p1: &mut [u16], p2: &mut [u16], a: usize)
    requires { Long a (length p0.old) (length p1.old) (length p2.old) }
    ensures p0_after { p0.new ≡ cleared p0.old a (length p0.old) }
    ensures p1_after { p1.new ≡ cleared p1.old a (length p1.old) }
    ensures p2_after { p2.new ≡ cleared p2.old a (length p2.old) }
{
    let n0 = p0.len();
    zero_part(p0, a, n0);
    let n1 = p1.len();
    zero_part(p1, a, n1);
    let n2 = p2.len();
    zero_part(p2, a, n2);
}
