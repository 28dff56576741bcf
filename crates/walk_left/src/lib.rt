// What the walk asks of the tables between two calls: what is left to lower before an expression, whether it is there already; and what it
// keeps for a driven bit. Outside of the recursion.
#![tactic(auto)]

ghost use Rattle.std.specs.Prelude.{◌≡◌, true, ◌+◌, ◌*◌, ◌≤◌, ◌<◌};
ghost use Rattle.spec_rules.specs.Image.{count_at_of, signal_width, expr_width};
ghost use Rattle.spec_model.specs.Words.{Netlist};
ghost use Rattle.spec_model.specs.Lowering as model;
ghost use Rattle.check_image.specs.Accepted.{Accepted};
ghost use Rattle.scratch_view.specs.View.{limit_of, is_whole, state_of, Laid};
ghost use Rattle.walk_plan.specs.Plan.{bits_needs, BitsThere, range_rest};
ghost use Rattle.walk_left.specs.Left.{LeftOf, LeftIn, whole_rest, TurnThere, LeavesTurn, FirstTurn, Keeps};

use walk_plan::{Need, Turn};
use walk_view::Refusal;

// What is left to lower before an expression: a need, or none of a part that lies outside of the range, the turn after it, and where the
// part of a Concat that that turn takes begins.
#[derive(Clone, Copy)]
pub struct Left {
    pub need: Option<Need>,
    pub next: u32,
    pub at: u32,
}

// ---- what is left ----

// The turn after the last need.
const END: u32 = 4294967295;

// Of n bits of signal p, which begin at bit first: the first that has no net yet, of those from the number from on.
fn next_bit(image: &[u8], scr: &[u32], p: u32, first: u32, n: u32, from: u32) -> Option<Left>
    requires { (Laid image.now scr.now) × BitsThere image.now p first n }
    ensures { LeftIn image.now scr.now (bits_needs p first n) from result }
{
    for k in from..n {
        if scratch_tables::signal_net(image, scr, p, first + k).is_none() {
            return Some(Left {
                need: Some(Need::Bit(p, first + k)),
                next: k + 1,
                at: 0,
            });
        }
    }
    None
}

// What is left, where the plan says of turn k what it takes.
fn left_by(image: &[u8], scr: &[u32], turn: Turn, k: u32) -> Option<Left>
    requires { (Laid image.now scr.now) × TurnThere image.now turn × (k < 4294967295) }
    ensures { LeavesTurn image.now scr.now turn k result }
{
    match turn {
        Turn::Lower(need, at) => Some(Left {
            need,
            next: k + 1,
            at,
        }),
        Turn::Last(need) => Some(Left {
            need: Some(need),
            next: END,
            at: 0,
        }),
        Turn::Bits(p, first, n) => next_bit(image, scr, p, first, n, k),
        Turn::Build => None,
    }
}

// What is left before expression e.
pub fn whole_left(image: &[u8], scr: &[u32], e: u32, k: u32) -> Option<Left>
    requires { (Laid image.now scr.now) × (Accepted image.now) × (e < count_at_of image.now 1) }
    ensures { LeftOf image.now scr.now (whole_rest image.now e) k 0 result }
{
    if k == END {
        return None;
    }
    left_by(image, scr, walk_plan::whole_turn(image, e, k), k)
}

// What is left before a range of it.
pub fn range_left(
    image: &[u8],
    scr: &[u32],
    e: u32,
    lsb: u32,
    w: u32,
    k: u32,
    at: u32,
) -> Option<Left>
    requires { (Laid image.now scr.now) × (Accepted image.now) × (e < count_at_of image.now 1) × (lsb + w ≤ expr_width image.now e) × (at ≤ 1024 * k) }
    ensures { LeftOf image.now scr.now (range_rest image.now e lsb w) k at result }
{
    if k == END {
        return None;
    }
    left_by(
        image,
        scr,
        walk_plan::range_turn(image, e, lsb, w, k, at),
        k,
    )
}

// ---- what is there ----

// Only turn 0 asks whether all is there already.
pub fn whole_known(image: &[u8], scr: &[u32], e: u32, k: u32) -> bool
    requires { (Laid image.now scr.now) × (e < count_at_of image.now 1) }
    ensures { FirstTurn k result (is_whole image.now (limit_of scr.now) scr.now e) }
{
    k == 0 && scratch_tables::is_whole(image, scr, e)
}

// The same of a range.
pub fn range_known(image: &[u8], scr: &[u32], e: u32, lsb: u32, w: u32, k: u32) -> bool
    requires { (Laid image.now scr.now) × (e < count_at_of image.now 1) × (lsb + w ≤ expr_width image.now e) }
    ensures { (l : Netlist) → FirstTurn k result (model.range_known (state_of image.now l scr.now) e lsb w) }
{
    k == 0 && scratch_tables::range_known(image, scr, e, lsb, w)
}

// ---- a driven bit ----

// The net of bit o of expression e, once it is lowered, for bit b of signal p.
pub fn keep_driven(
    image: &[u8],
    scr: &mut [u32],
    p: u32,
    b: u32,
    e: u32,
    o: u32,
    x: Result<(), Refusal>,
) -> Result<(), Refusal>
    requires { (Laid image.now scr.old) × (p < count_at_of image.now 0) × (b < signal_width image.now p) × (e < count_at_of image.now 1) × (o < expr_width image.now e) × (x ≡ Ok tt → is_whole image.now (limit_of scr.old) scr.old e ≡ true) }
    ensures { Keeps image.now scr.old p b e o x result scr.new }
{
    x?;
    let n = scratch_tables::expr_net(image, scr, e, o);
    scratch_tables::keep_signal(image, scr, p, b, n);
    Ok(())
}
