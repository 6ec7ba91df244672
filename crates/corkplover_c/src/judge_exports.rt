// The calls that judge a frame, for C: each is the call of the same name in corkplover/src/judge_exports.rt, with its
// clauses.
ghost use Rattle.setting.specs.declared.Way.TheVariants.{Forward, Reverse};
ghost use Rattle.corkplover.specs.Packing.{setting_in, sizes};
ghost use Rattle.corkplover.specs.After.{JudgementAfter};

use corkplover::judge_exports;

// Whether a claimed luma and chroma picture is what its source converts to.
#[unsafe(no_mangle)]
pub extern "C" fn corkplover_judge_forward(
    setting: u64,
    width: usize,
    height: usize,
    sourcestride: usize,
    claimedstride: usize,
    r: &[u16],
    g: &[u16],
    b: &[u16],
    y: &[u16],
    cb: &[u16],
    cr: &[u16],
    wrong: &mut u64,
) -> u64
    ensures { JudgementAfter Forward (setting_in setting) (sizes width height sourcestride claimedstride)
        r.now g.now b.now y.now cb.now cr.now
        result wrong.new }
{
    judge_exports::corkplover_judge_forward(
        setting,
        width,
        height,
        sourcestride,
        claimedstride,
        r,
        g,
        b,
        y,
        cb,
        cr,
        wrong,
    )
}

// Whether a claimed RGB picture is what its source converts back to.
#[unsafe(no_mangle)]
pub extern "C" fn corkplover_judge_reverse(
    setting: u64,
    width: usize,
    height: usize,
    sourcestride: usize,
    claimedstride: usize,
    y: &[u16],
    cb: &[u16],
    cr: &[u16],
    r: &[u16],
    g: &[u16],
    b: &[u16],
    wrong: &mut u64,
) -> u64
    ensures { JudgementAfter Reverse (setting_in setting) (sizes width height sourcestride claimedstride)
        y.now cb.now cr.now r.now g.now b.now
        result wrong.new }
{
    judge_exports::corkplover_judge_reverse(
        setting,
        width,
        height,
        sourcestride,
        claimedstride,
        y,
        cb,
        cr,
        r,
        g,
        b,
        wrong,
    )
}
