// A rival converter's frame, judged by the box's own formulas, either way. Any sizes, strides and plane lengths may be handed in; every plane is only
// read. A size's output stride is the claimed planes'. The planes stay parameters of their own: the theorems on each call (proofs/Calls.antt) name them so.
ghost use Rattle.std.specs.Prelude.{◌≡◌};
ghost use Rattle.setting.specs.declared.Way.TheVariants.{Forward, Reverse};
ghost use Rattle.rows.specs.Paint.{input_picture, output_picture};
ghost use Rattle.judge.specs.Judge.{judgement};

use judge::Difference;
use refusal::Refusal;
use rows::paint::Size;
use setting::{Setting, Way};

// How Y, Cb, Cr differ from what R, G, B become, if they do. Refusals 12, 1 to 7, 8, 9 on all six planes, then 10 on R, G, B.
pub fn judge_forward(
    s: Setting,
    size: Size,
    r: &[u16],
    g: &[u16],
    b: &[u16],
    y: &[u16],
    cb: &[u16],
    cr: &[u16],
) -> Result<Option<Difference>, Refusal>
    ensures { result ≡ judgement Forward s (input_picture size r.now g.now b.now)
        (output_picture size y.now cb.now cr.now) }
{
    judge::judge_frame(Way::Forward, s, size.input(r, g, b), size.output(y, cb, cr))
}

// How R, G, B differ from what Y, Cb, Cr become, if they do. Refusals 12, 1 to 7, 8, 9 on all six planes, then 10 on Y, Cb, Cr.
pub fn judge_reverse(
    s: Setting,
    size: Size,
    y: &[u16],
    cb: &[u16],
    cr: &[u16],
    r: &[u16],
    g: &[u16],
    b: &[u16],
) -> Result<Option<Difference>, Refusal>
    ensures { result ≡ judgement Reverse s (input_picture size y.now cb.now cr.now)
        (output_picture size r.now g.now b.now) }
{
    judge::judge_frame(Way::Reverse, s, size.input(y, cb, cr), size.output(r, g, b))
}
