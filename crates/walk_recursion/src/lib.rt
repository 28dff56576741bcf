// The walk over a module: signal bits, expressions and ranges of expressions are lowered by need, each once. Follows `resolve_signal_bit`,
// `lower_expression` and `lower_expression_range` of struo-synth, which call each other. A level of the recursion keeps few words on the
// stack: what an expression does between two calls is a turn, outside of the recursion.
#![tactic(auto)]

ghost use Rattle.std.specs.Prelude.{◌+◌, ◌≤◌, ◌<◌};
ghost use Rattle.spec_rules.specs.Image.{count_at_of, signal_width, expr_width};
ghost use Rattle.spec_model.specs.Lowering as model;
ghost use Rattle.walk_view.specs.View.{Ready, Sure, Gives};
ghost use Rattle.walk_recursion.specs.declared.Part.TheVariants as P;
ghost use Rattle.walk_recursion.specs.Walk.{ThereNeed, GivesNeed, Begun, Turns};

use walk_left::Left;
use walk_plan::Need;
use walk_view::Refusal;

// An expression, or a range of it (lsb, width).
#[derive(Clone, Copy)]
pub enum Part {
    Whole(u32),
    Range(u32, u32, u32),
}

// ---- turns: what one answers is what is left to lower, or nothing where the expression is done ----

fn turn_whole(
    image: &[u8],
    net: &mut [u32],
    scr: &mut [u32],
    e: u32,
    k: u32,
) -> Result<Option<Left>, Refusal>
    requires { Begun image.now (P.Whole e) k 0 net.old scr.old }
    ensures { Turns image.now net.old scr.old (P.Whole e) k 0 result net.new scr.new }
{
    if walk_left::whole_known(image, scr, e, k) {
        return Ok(None);
    }
    match walk_left::whole_left(image, scr, e, k) {
        Some(left) => Ok(Some(left)),
        None => {
            walk_build::build_whole(image, net, scr, e)?;
            Ok(None)
        }
    }
}

fn turn_range(
    image: &[u8],
    net: &mut [u32],
    scr: &mut [u32],
    e: u32,
    lsb: u32,
    w: u32,
    k: u32,
    at: u32,
) -> Result<Option<Left>, Refusal>
    requires { Begun image.now (P.Range e lsb w) k at net.old scr.old }
    ensures { Turns image.now net.old scr.old (P.Range e lsb w) k at result net.new scr.new }
{
    if walk_left::range_known(image, scr, e, lsb, w, k) {
        return Ok(None);
    }
    match walk_left::range_left(image, scr, e, lsb, w, k, at) {
        Some(left) => Ok(Some(left)),
        None => {
            walk_build::build_range(image, net, scr, e, lsb, w)?;
            Ok(None)
        }
    }
}

// Turn k of an expression or a range; the part of a Concat that it takes begins at bit at. Two functions call it, so the compiler keeps it
// out of their frames.
fn turn(
    image: &[u8],
    net: &mut [u32],
    scr: &mut [u32],
    part: Part,
    k: u32,
    at: u32,
) -> Result<Option<Left>, Refusal>
    requires { Begun image.now part k at net.old scr.old }
    ensures { Turns image.now net.old scr.old part k at result net.new scr.new }
{
    match part {
        Part::Whole(e) => turn_whole(image, net, scr, e, k),
        Part::Range(e, lsb, w) => turn_range(image, net, scr, e, lsb, w, k, at),
    }
}

// ---- the recursion ----

#[cycle(walk)]
#[inline(never)]
pub fn resolve_signal_bit(
    image: &[u8],
    net: &mut [u32],
    scr: &mut [u32],
    p: u32,
    b: u32,
) -> Result<(), Refusal>
    requires { (Ready image.now net.old scr.old) × (Sure image.now net.old scr.old) × (p < count_at_of image.now 0) × (b < signal_width image.now p) }
    ensures { Gives image.now net.old scr.old (model.Bit p b) result net.new scr.new }
{
    if scratch_tables::signal_net(image, scr, p, b).is_some() {
        return Ok(());
    }
    let Some((e, o)) = scratch_tables::driver_of(image, scr, p, b) else {
        return Err(Refusal::Undriven(p, b));
    };
    if scratch_tables::marked(image, scr, p, b) {
        return Err(Refusal::Loop(p, b));
    }
    scratch_tables::mark_signal(image, scr, p, b);
    let x = lower_expression(image, net, scr, e);
    walk_left::keep_driven(image, scr, p, b, e, o, x)
}

#[cycle(walk)]
#[inline(never)]
pub fn lower_expression(
    image: &[u8],
    net: &mut [u32],
    scr: &mut [u32],
    e: u32,
) -> Result<(), Refusal>
    requires { (Ready image.now net.old scr.old) × (Sure image.now net.old scr.old) × (e < count_at_of image.now 1) }
    ensures { Gives image.now net.old scr.old (model.Whole e) result net.new scr.new }
{
    let part = Part::Whole(e);
    let mut k = 0;
    while let Some(left) = turn(image, net, scr, part, k, 0)? {
        lower_need(image, net, scr, left.need)?;
        k = left.next;
    }
    Ok(())
}

#[cycle(walk)]
#[inline(never)]
pub fn lower_expression_range(
    image: &[u8],
    net: &mut [u32],
    scr: &mut [u32],
    e: u32,
    lsb: u32,
    w: u32,
) -> Result<(), Refusal>
    requires { (Ready image.now net.old scr.old) × (Sure image.now net.old scr.old) × (e < count_at_of image.now 1) × (lsb + w ≤ expr_width image.now e) }
    ensures { Gives image.now net.old scr.old (model.Range e lsb w) result net.new scr.new }
{
    let part = Part::Range(e, lsb, w);
    let mut k = 0;
    let mut at = 0;
    while let Some(left) = turn(image, net, scr, part, k, at)? {
        lower_need(image, net, scr, left.need)?;
        k = left.next;
        at = left.at;
    }
    Ok(())
}

// The hints keep a level of the recursion to one frame: `lower_need` and these two, which it calls, stand in the frame of their caller
// (docs/BENCH.md, stack).
#[cycle(walk)]
#[inline(always)]
fn lower_bit(image: &[u8], net: &mut [u32], scr: &mut [u32], p: u32, b: u32) -> Result<(), Refusal>
    requires { (Ready image.now net.old scr.old) × (Sure image.now net.old scr.old) × (p < count_at_of image.now 0) × (b < signal_width image.now p) }
    ensures { Gives image.now net.old scr.old (model.Bit p b) result net.new scr.new }
{
    resolve_signal_bit(image, net, scr, p, b)
}

#[cycle(walk)]
#[inline(always)]
fn lower_whole(image: &[u8], net: &mut [u32], scr: &mut [u32], e: u32) -> Result<(), Refusal>
    requires { (Ready image.now net.old scr.old) × (Sure image.now net.old scr.old) × (e < count_at_of image.now 1) }
    ensures { Gives image.now net.old scr.old (model.Whole e) result net.new scr.new }
{
    lower_expression(image, net, scr, e)
}

// What a need names, if there is one.
#[cycle(walk)]
#[inline(always)]
fn lower_need(
    image: &[u8],
    net: &mut [u32],
    scr: &mut [u32],
    need: Option<Need>,
) -> Result<(), Refusal>
    requires { (Ready image.now net.old scr.old) × (Sure image.now net.old scr.old) × (ThereNeed image.now need) }
    ensures { GivesNeed image.now net.old scr.old need result net.new scr.new }
{
    let Some(need) = need else {
        return Ok(());
    };
    match need {
        Need::Bit(p, b) => lower_bit(image, net, scr, p, b),
        Need::Whole(e) => lower_whole(image, net, scr, e),
        Need::Range(e, lsb, w) => lower_expression_range(image, net, scr, e, lsb, w),
    }
}
