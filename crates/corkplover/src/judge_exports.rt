// The calls that judge a frame, for C and for every language that can call C. Of six planes none is written to; the count goes where the caller said.
// The crate corkplover_c exports them.
ghost use Rattle.setting.specs.declared.Way.TheVariants.{Forward, Reverse};
ghost use Rattle.corkplover.specs.Packing.{setting_in, sizes};
ghost use Rattle.corkplover.specs.After.{JudgementAfter};

use crate::packing;
use crate::packing::{setting_in, size_of};
use setting::Way;

// Planes b, claimed to be what planes a become by the way that is asked for.
fn leave_judgement(
    way: Way,
    setting: u64,
    width: usize,
    height: usize,
    sourcestride: usize,
    claimedstride: usize,
    a0: &[u16],
    a1: &[u16],
    a2: &[u16],
    b0: &[u16],
    b1: &[u16],
    b2: &[u16],
    wrong: &mut u64,
) -> u64
    ensures { JudgementAfter way (setting_in setting) (sizes width height sourcestride claimedstride)
        a0.now a1.now a2.now b0.now b1.now b2.now
        result wrong.new }
{
    let s = setting_in(setting);
    let size = size_of(width, height, sourcestride, claimedstride);
    let judgement = judge::judge_frame(way, s, size.input(a0, a1, a2), size.output(b0, b1, b2));
    *wrong = packing::wrong_in(judgement);
    packing::pack_judgement(judgement)
}

pub fn corkplover_judge_forward(
    setting: u64,
    width: usize,
    height: usize,
    sourcestride: usize,
    claimedstride: usize,
    r: &[u16],
    g: &[u16],
    b: &[u16],
    y: &[u16],
    cb: &[u16],
    cr: &[u16],
    wrong: &mut u64,
) -> u64
    ensures { JudgementAfter Forward (setting_in setting) (sizes width height sourcestride claimedstride)
        r.now g.now b.now y.now cb.now cr.now
        result wrong.new }
{
    leave_judgement(
        Way::Forward,
        setting,
        width,
        height,
        sourcestride,
        claimedstride,
        r,
        g,
        b,
        y,
        cb,
        cr,
        wrong,
    )
}

pub fn corkplover_judge_reverse(
    setting: u64,
    width: usize,
    height: usize,
    sourcestride: usize,
    claimedstride: usize,
    y: &[u16],
    cb: &[u16],
    cr: &[u16],
    r: &[u16],
    g: &[u16],
    b: &[u16],
    wrong: &mut u64,
) -> u64
    ensures { JudgementAfter Reverse (setting_in setting) (sizes width height sourcestride claimedstride)
        y.now cb.now cr.now r.now g.now b.now
        result wrong.new }
{
    leave_judgement(
        Way::Reverse,
        setting,
        width,
        height,
        sourcestride,
        claimedstride,
        y,
        cb,
        cr,
        r,
        g,
        b,
        wrong,
    )
}
