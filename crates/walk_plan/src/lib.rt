// What is lowered before an expression, or before a range of it, one by one: pure functions of the image.
#![tactic(auto)]

ghost use Rattle.std.specs.Prelude.{◌≡◌, List, ℕ, ◌+◌, ◌*◌, ◌≤◌, ◌<◌, min, max};
ghost use Rattle.spec_rules.specs.Image.{count_at_of, expr_width};
ghost use Rattle.spec_model.specs.Lowering as model;
ghost use Rattle.check_image.specs.Accepted.{Accepted};
ghost use Rattle.image_records.specs.Expr.{binary_means};
ghost use Rattle.expr_laws.specs.Exprs.{exprs_of};
ghost use Rattle.expr_fusion.specs.Fusion.{Inside, shown};
ghost use Rattle.walk_plan.specs.Plan.{needs_of, TurnOf, TurnIn, operand_needs, plain_of, pair_needs, triple_needs, parts_needs, kind_needs, whole_needs, Asked, unary_needs, binary_needs, mux_ranges, part_needs, pieces_needs, kind_rest, AskedParts, AskedRange, range_rest};

use expr_fusion::Operands;
use image_records::{BinaryOp, ExprKind, Expression, OpClass, UnaryOp};

// Something to lower: a signal's bit, an expression, a range of an expression (lsb, width).
#[derive(Clone, Copy)]
pub enum Need {
    Bit(u32, u32),
    Whole(u32),
    Range(u32, u32, u32),
}

// What turn k of a loop over what is lowered before an expression, or a range of it, takes: one need, or none of a part that lies outside of
// the range, and where the part of a Concat that the next turn takes begins; the last need; of some bits of a signal (signal, first bit, how many) those from the k-th on; or nothing.
#[derive(Clone, Copy)]
pub enum Turn {
    Lower(Option<Need>, u32),
    Last(Need),
    Bits(u32, u32, u32),
    Build,
}

fn one(need: Need, k: u32) -> Turn
    ensures { (s : List ℕ) → TurnIn s (needs_of (Some need)) k result }
{
    if k == 0 {
        return Turn::Last(need);
    }
    Turn::Build
}

// ---- a whole expression ----

fn plain(lhs: u32, rhs: u32) -> Operands
    ensures { shown result ≡ plain_of lhs rhs }
{
    Operands {
        lhs,
        rhs,
        carry: None,
    }
}

// What a Binary lowers.
pub fn operands(image: &[u8], op: BinaryOp, lhs: u32, rhs: u32) -> Operands
    requires { Inside image.now lhs rhs }
    ensures { shown result ≡ model.operands_of (exprs_of image.now) (binary_means op) lhs rhs }
{
    match image_records::op_class(op) {
        OpClass::Adds => expr_fusion::add_with_carry(image, lhs, rhs),
        OpClass::Ands => plain(lhs, rhs),
        OpClass::Ors => plain(lhs, rhs),
        OpClass::Subtracts => plain(lhs, rhs),
        OpClass::Other => plain(lhs, rhs),
    }
}

fn pair(a: u32, b: u32, k: u32) -> Turn
    ensures { (s : List ℕ) → TurnIn s (pair_needs a b) k result }
{
    if k == 0 {
        return Turn::Lower(Some(Need::Whole(a)), 0);
    }
    if k == 1 {
        return Turn::Last(Need::Whole(b));
    }
    Turn::Build
}

fn triple(a: u32, b: u32, c: u32, k: u32) -> Turn
    ensures { (s : List ℕ) → TurnIn s (triple_needs a b c) k result }
{
    if k == 0 {
        return Turn::Lower(Some(Need::Whole(a)), 0);
    }
    if k == 1 {
        return Turn::Lower(Some(Need::Whole(b)), 0);
    }
    if k == 2 {
        return Turn::Last(Need::Whole(c));
    }
    Turn::Build
}

fn operand(o: Operands, k: u32) -> Turn
    ensures { (s : List ℕ) → TurnIn s (operand_needs (shown o)) k result }
{
    match o.carry {
        Some(carry) => triple(o.lhs, o.rhs, carry, k),
        None => pair(o.lhs, o.rhs, k),
    }
}

// The parts of a Concat, the least significant first.
fn part(image: &[u8], start: u32, count: u32, k: u32) -> Turn
    requires { start + count ≤ 8192 }
    ensures { (s : List ℕ) → TurnIn s (parts_needs image.now start count) k result }
{
    if k < count {
        let part = image_fields::list_word(image, start + (count - 1 - k));
        return Turn::Lower(Some(Need::Whole(part)), 0);
    }
    Turn::Build
}

fn kind_need(image: &[u8], width: u32, kind: ExprKind, k: u32) -> Turn
    requires { Asked image.now width kind }
    ensures { TurnIn image.now (kind_needs image.now width kind) k result }
{
    match kind {
        ExprKind::Signal(p, lsb) => Turn::Bits(p, lsb, width),
        ExprKind::Constant(_) => Turn::Build,
        ExprKind::Unary(_, a) => one(Need::Whole(a), k),
        ExprKind::Binary(op, a, b) => operand(operands(image, op, a, b), k),
        ExprKind::Mux(c, t, f) => triple(c, t, f, k),
        ExprKind::Concat(start, count) => part(image, start, count, k),
        ExprKind::Slice(a, lsb) => one(Need::Range(a, lsb, width), k),
    }
}

// Turn k before expression e.
pub fn whole_turn(image: &[u8], e: u32, k: u32) -> Turn
    requires { (Accepted image.now) × (e < count_at_of image.now 1) }
    ensures { TurnIn image.now (whole_needs image.now e) k result }
{
    let Expression { width, kind } = image_records::expression_at(image, e);
    kind_need(image, width, kind, k)
}

// ---- a range of an expression ----

fn unary_range_need(op: UnaryOp, e: u32, a: u32, lsb: u32, w: u32) -> Need
    ensures { unary_needs op e a lsb w ≡ needs_of (Some result) }
{
    match op {
        UnaryOp::BitNot => Need::Range(a, lsb, w),
        UnaryOp::LogicNot => Need::Whole(e),
        UnaryOp::ReduceOr => Need::Whole(e),
        UnaryOp::ReduceAnd => Need::Whole(e),
        UnaryOp::ReduceXor => Need::Whole(e),
    }
}

fn binary_range_turn(op: BinaryOp, e: u32, a: u32, b: u32, lsb: u32, w: u32, k: u32) -> Turn
    ensures { (s : List ℕ) → TurnIn s (binary_needs op e a b lsb w) k result }
{
    if !image_records::is_bitwise(op) {
        return one(Need::Whole(e), k);
    }
    if k == 0 {
        return Turn::Lower(Some(Need::Range(a, lsb, w)), 0);
    }
    if k == 1 {
        return Turn::Last(Need::Range(b, lsb, w));
    }
    Turn::Build
}

fn mux_range_turn(condition: u32, then_expr: u32, else_expr: u32, lsb: u32, w: u32, k: u32) -> Turn
    ensures { (s : List ℕ) → TurnIn s (mux_ranges condition then_expr else_expr lsb w) k result }
{
    if k == 0 {
        return Turn::Lower(Some(Need::Whole(condition)), 0);
    }
    if k == 1 {
        return Turn::Lower(Some(Need::Range(then_expr, lsb, w)), 0);
    }
    if k == 2 {
        return Turn::Last(Need::Range(else_expr, lsb, w));
    }
    Turn::Build
}

// What the range takes of a part, v wide, that begins at bit at.
fn part_range_need(lsb: u32, end: u32, at: u32, p: u32, v: u32) -> Option<Need>
    requires { at + v < 4294967296 }
    ensures { part_needs lsb end at p v ≡ needs_of result }
{
    let low = lsb.max(at);
    let high = end.min(at + v);
    if low < high {
        return Some(Need::Range(p, low - at, high - low));
    }
    None
}

// Of a Concat's part k, which begins at bit at, what stands in the range.
fn concat_range_turn(
    image: &[u8],
    start: u32,
    count: u32,
    lsb: u32,
    w: u32,
    k: u32,
    at: u32,
) -> Turn
    requires { (AskedParts image.now start count lsb w) × (at ≤ 1024 * k) }
    ensures { TurnOf image.now (pieces_needs image.now start count lsb w) k at result }
{
    if k < count {
        let part = image_fields::list_word(image, start + (count - 1 - k));
        let v = image_fields::expr_width(image, part);
        return Turn::Lower(part_range_need(lsb, lsb + w, at, part, v), at + v);
    }
    Turn::Build
}

fn kind_range_turn(image: &[u8], e: u32, lsb: u32, w: u32, kind: ExprKind, k: u32, at: u32) -> Turn
    requires { (AskedRange image.now lsb w kind) × (at ≤ 1024 * k) }
    ensures { TurnOf image.now (kind_rest image.now e lsb w kind) k at result }
{
    match kind {
        ExprKind::Signal(p, l) => Turn::Bits(p, l + lsb, w),
        ExprKind::Constant(_) => Turn::Build,
        ExprKind::Unary(op, a) => one(unary_range_need(op, e, a, lsb, w), k),
        ExprKind::Binary(op, a, b) => binary_range_turn(op, e, a, b, lsb, w, k),
        ExprKind::Mux(c, t, f) => mux_range_turn(c, t, f, lsb, w, k),
        ExprKind::Concat(start, count) => concat_range_turn(image, start, count, lsb, w, k, at),
        ExprKind::Slice(a, l) => one(Need::Range(a, l + lsb, w), k),
    }
}

// Turn k before a range of expression e; the part of a Concat that it takes begins at bit at.
pub fn range_turn(image: &[u8], e: u32, lsb: u32, w: u32, k: u32, at: u32) -> Turn
    requires { (Accepted image.now) × (e < count_at_of image.now 1) × (lsb + w ≤ expr_width image.now e) × (at ≤ 1024 * k) }
    ensures { TurnOf image.now (range_rest image.now e lsb w) k at result }
{
    let x = image_records::expression_at(image, e);
    kind_range_turn(image, e, lsb, w, x.kind, k, at)
}
