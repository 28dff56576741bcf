// The operands of an expression, or of a range of it, read from the tables into two lists of nets by its kind, and what is to be made of them.
#![tactic(auto)]

ghost use Rattle.std.specs.Prelude.{◌≡◌, true, false, List, ℕ, ◌+◌, ◌≤◌, ◌<◌, ◌-◌, min, max, length, take};
ghost use Rattle.std.proofs.Math.Option.{none};
ghost use Rattle.spec_rules.specs.Image.{expr_width, count_at_of};
ghost use Rattle.spec_model.specs.Words.{Netlist};
ghost use Rattle.spec_model.specs.Lowering.{part_nets, whole_net, whole_nets, lower_unary, lower_binary, build_mux, build_whole, build_binary, build_range, range_gate, gate_of, is_bit_not, range_nets, piece_nets, concat_pieces};
ghost use Rattle.spec_model.specs.Ranges.{class_of};
ghost use Rattle.word_laws.specs.Widths.{UnWidth, BinWidth};
ghost use Rattle.image_records.specs.Expr.{unary_means, binary_means};
ghost use Rattle.image_records.specs.OpClass.{bitwise};
ghost use Rattle.scratch_view.specs.View.{state_of, Laid};
ghost use Rattle.expr_fusion.specs.Fusion.{parts_of};
ghost use Rattle.expr_laws.specs.Exprs.{exprs_of, Readable};
ghost use Rattle.walk_operands.specs.Tasks.{Read, cut_to};
ghost use Rattle.walk_operands.specs.Reads.{CopiedWhole, Parts, WholeIn, MuxIn, AddIn, add_made, parts_width};
ghost use Rattle.walk_operands.specs.declared.Task.TheVariants.{Copied};
ghost use Rattle.walk_operands.specs.AskedWhole.{Room, Asked, BinaryIn};
ghost use Rattle.walk_operands.specs.AskedRange.{AskedRange, Within, PartsIn, CopiedPiece, not_made};

use image_records::{BinaryOp, ExprKind, Expression, OpClass, UnaryOp};

// ---- what is made of the nets ----

// The operands are the first nets of two lists: the nets themselves; a constant's bits (list start, width, lowest bit); an operator and how
// many nets it takes of each list; an addition (width of its operands) with a carry; a choice by a net.
#[derive(Clone, Copy)]
pub enum Task {
    Copied,
    Constant(u32, u32, u32),
    Unary(UnaryOp, u32),
    Binary(BinaryOp, u32, u32),
    Carried(u32, u32),
    Mux(u32),
}

// A task, and the width that an adder is narrowed to, 0 if it is not.
#[derive(Clone, Copy)]
pub struct Job {
    pub task: Task,
    pub narrow: u32,
}

// ---- operands that are lowered whole ----

// All nets of a whole expression, to a list of nets from a place on; how many they are.
pub fn copy_whole(image: &[u8], scr: &[u32], a: u32, out: &mut [u32], to: usize) -> u32
    requires { (Laid image.now scr.now) × (WholeIn image.now scr.now a) × (to + expr_width image.now a ≤ length out.old) }
    ensures { CopiedWhole image.now scr.now a out.old to result out.new }
{
    let k = image_fields::expr_width(image, a);
    scratch_tables::copy_range(image, scr, a, 0, k, out, to);
    k
}

// The nets of a Concat's parts, the last part first.
pub fn copy_parts(image: &[u8], scr: &[u32], start: u32, count: u32, out: &mut [u32])
    requires { (Laid image.now scr.now) × (Parts image.now scr.now start count) × (parts_width image.now start count ≤ length out.old) × (parts_width image.now start count ≤ 1024) }
    ensures { (l : Netlist) → take (parts_width image.now start count) out.new ≡ part_nets (state_of image.now l scr.now) (parts_of image.now start count) }
{
    let mut at: u32 = 0;
    for i in (0..count).rev() {
        let p = image_fields::list_word(image, start + i);
        at += copy_whole(image, scr, p, out, at as usize);
    }
}

pub fn unary_operand(image: &[u8], scr: &[u32], v: u32, op: UnaryOp, a: u32, xs: &mut [u32]) -> Job
    requires { (Laid image.now scr.now) × (WholeIn image.now scr.now a) × (UnWidth (unary_means op) v (expr_width image.now a)) × (1 ≤ v) × (v ≤ length xs.old) × (expr_width image.now a ≤ length xs.old) }
    ensures { (ys : List ℕ) → Read (length xs.old) (λ l. lower_unary (unary_means op) (whole_nets (state_of image.now l scr.now) a) l) image.now v result xs.new ys }
{
    let k = copy_whole(image, scr, a, xs, 0);
    Job {
        task: Task::Unary(op, k),
        narrow: 0,
    }
}

pub fn mux_operands(
    image: &[u8],
    scr: &[u32],
    v: u32,
    c: u32,
    t: u32,
    e: u32,
    xs: &mut [u32],
    ys: &mut [u32],
) -> Job
    requires { (Laid image.now scr.now) × (MuxIn image.now scr.now v c t e) × (1 ≤ v) × (v ≤ length xs.old) × (length ys.old ≡ length xs.old) }
    ensures { Read (length xs.old) (λ l. build_mux none (whole_net (state_of image.now l scr.now) c 0) (whole_nets (state_of image.now l scr.now) t) (whole_nets (state_of image.now l scr.now) e) l) image.now v result xs.new ys.new }
{
    let k = scratch_tables::expr_net(image, scr, c, 0);
    copy_whole(image, scr, t, xs, 0);
    copy_whole(image, scr, e, ys, 0);
    Job {
        task: Task::Mux(k),
        narrow: 0,
    }
}

// The operands of an operator with two that is no addition.
pub fn binary_operands(
    image: &[u8],
    scr: &[u32],
    v: u32,
    op: BinaryOp,
    a: u32,
    b: u32,
    xs: &mut [u32],
    ys: &mut [u32],
) -> Job
    requires { (Laid image.now scr.now) × (WholeIn image.now scr.now a) × (WholeIn image.now scr.now b) × (BinWidth (binary_means op) v (expr_width image.now a) (expr_width image.now b)) × (1 ≤ v) × (v ≤ length xs.old) × (expr_width image.now a ≤ length xs.old) × (expr_width image.now b ≤ length xs.old) × (length ys.old ≡ length xs.old) }
    ensures { Read (length xs.old) (λ l. lower_binary (binary_means op) (whole_nets (state_of image.now l scr.now) a) (whole_nets (state_of image.now l scr.now) b) l) image.now v result xs.new ys.new }
{
    let j = copy_whole(image, scr, a, xs, 0);
    let k = copy_whole(image, scr, b, ys, 0);
    Job {
        task: Task::Binary(op, j, k),
        narrow: 0,
    }
}

// A width, cut to the width that an adder is narrowed to.
fn cut(narrow: u32, v: u32) -> u32
    ensures { result ≡ cut_to narrow v }
{
    if narrow == 0 { v } else { narrow }
}

// The operands of an Add: an inner Add's and a carry, or its own.
pub fn add_operands(
    image: &[u8],
    scr: &[u32],
    e: u32,
    a: u32,
    b: u32,
    xs: &mut [u32],
    ys: &mut [u32],
) -> Job
    requires { (AddIn image.now scr.now e a b) × (expr_width image.now e ≤ length xs.old) × (length ys.old ≡ length xs.old) }
    ensures { Read (length xs.old) (λ l. add_made image.now l scr.now e a b) image.now (expr_width image.now e) result xs.new ys.new }
{
    let narrow = scr[scr[scratch_view::ROWS] as usize
        + scratch_view::ROW * (e as usize)
        + scratch_view::NARROWED];
    let operands = expr_fusion::add_with_carry(image, a, b);
    let j = copy_whole(image, scr, operands.lhs, xs, 0);
    copy_whole(image, scr, operands.rhs, ys, 0);
    let k = cut(narrow, j);
    match operands.carry {
        Some(carry) => Job {
            task: Task::Carried(k, scratch_tables::expr_net(image, scr, carry, 0)),
            narrow,
        },
        None => Job {
            task: Task::Binary(BinaryOp::Add, k, k),
            narrow,
        },
    }
}

// ---- a whole expression ----

// The operands of an operator with two: an Add can take a carry, and be narrowed.
fn two_operands(
    image: &[u8],
    scr: &[u32],
    e: u32,
    op: BinaryOp,
    a: u32,
    b: u32,
    xs: &mut [u32],
    ys: &mut [u32],
) -> Job
    requires { (BinaryIn image.now scr.now e op a b) × (expr_width image.now e ≤ length xs.old) × (expr_width image.now a ≤ length xs.old) × (expr_width image.now b ≤ length xs.old) × (length ys.old ≡ length xs.old) }
    ensures { Read (length xs.old) (λ l. build_binary (exprs_of image.now) (state_of image.now l scr.now) e (expr_width image.now e) (binary_means op) a b) image.now (expr_width image.now e) result xs.new ys.new }
{
    match image_records::op_class(op) {
        OpClass::Adds => add_operands(image, scr, e, a, b, xs, ys),
        _ => {
            let v = image_fields::expr_width(image, e);
            binary_operands(image, scr, v, op, a, b, xs, ys)
        }
    }
}

// Whether an expression, and each operand of its operator, is at most 64 wide.
pub fn is_narrow(image: &[u8], e: u32) -> bool
    requires { (Readable image.now) × (e < count_at_of image.now 1) }
    ensures { result ≡ true → Room image.now 64 e }
{
    let Expression { width, kind } = image_records::expression_at(image, e);
    if 64 < width {
        return false;
    }
    match kind {
        ExprKind::Unary(_, a) => image_fields::expr_width(image, a) <= 64,
        ExprKind::Binary(_, a, b) => {
            image_fields::expr_width(image, a) <= 64 && image_fields::expr_width(image, b) <= 64
        }
        _ => true,
    }
}

// The nets themselves.
pub fn copied() -> Job
    ensures { result ≡ record { task = Copied; narrow = 0 } }
{
    Job {
        task: Task::Copied,
        narrow: 0,
    }
}

pub fn read_whole(image: &[u8], scr: &[u32], e: u32, xs: &mut [u32], ys: &mut [u32]) -> Job
    requires { (Asked image.now scr.now e) × (Room image.now (length xs.old) e) × (length ys.old ≡ length xs.old) }
    ensures { Read (length xs.old) (λ l. build_whole (exprs_of image.now) false (state_of image.now l scr.now) e) image.now (expr_width image.now e) result xs.new ys.new }
{
    let Expression { width, kind } = image_records::expression_at(image, e);
    match kind {
        ExprKind::Signal(p, lsb) => {
            scratch_tables::copy_signal(image, scr, p, lsb, width, xs, 0);
            copied()
        }
        ExprKind::Constant(start) => Job {
            task: Task::Constant(start, width, 0),
            narrow: 0,
        },
        ExprKind::Unary(op, a) => unary_operand(image, scr, width, op, a, xs),
        ExprKind::Binary(op, a, b) => two_operands(image, scr, e, op, a, b, xs, ys),
        ExprKind::Mux(c, t, f) => mux_operands(image, scr, width, c, t, f, xs, ys),
        ExprKind::Concat(start, count) => {
            copy_parts(image, scr, start, count, xs);
            copied()
        }
        ExprKind::Slice(a, lsb) => {
            scratch_tables::copy_range(image, scr, a, lsb, width, xs, 0);
            copied()
        }
    }
}

// ---- a range of an expression ----

// A range of the operand of a BitNot; of another operator's own nets.
fn range_unary(
    image: &[u8],
    scr: &[u32],
    e: u32,
    lsb: u32,
    n: u32,
    op: UnaryOp,
    a: u32,
    xs: &mut [u32],
) -> Job
    requires { (Laid image.now scr.now) × (Within image.now e lsb n) × (is_bit_not (unary_means op) ≡ true → Within image.now a lsb n) × (1 ≤ n) × (n ≤ length xs.old) }
    ensures { (ys : List ℕ) → Read (length xs.old) (λ l. not_made (is_bit_not (unary_means op)) (state_of image.now l scr.now) e a lsb n) image.now n result xs.new ys }
{
    match op {
        UnaryOp::BitNot => {
            scratch_tables::copy_range(image, scr, a, lsb, n, xs, 0);
            Job {
                task: Task::Unary(UnaryOp::BitNot, n),
                narrow: 0,
            }
        }
        _ => {
            scratch_tables::copy_range(image, scr, e, lsb, n, xs, 0);
            Job {
                task: Task::Copied,
                narrow: 0,
            }
        }
    }
}

// Ranges of the operands of an operator that works bit by bit; of another operator's own nets.
fn range_binary(
    image: &[u8],
    scr: &[u32],
    e: u32,
    lsb: u32,
    n: u32,
    op: BinaryOp,
    a: u32,
    b: u32,
    xs: &mut [u32],
    ys: &mut [u32],
) -> Job
    requires { (Laid image.now scr.now) × (Within image.now e lsb n) × (bitwise op ≡ true → Within image.now a lsb n) × (bitwise op ≡ true → Within image.now b lsb n) × (1 ≤ n) × (n ≤ length xs.old) × (length ys.old ≡ length xs.old) }
    ensures { Read (length xs.old) (λ l. range_gate (gate_of (class_of (binary_means op))) (state_of image.now l scr.now) e a b lsb n) image.now n result xs.new ys.new }
{
    if image_records::is_bitwise(op) {
        scratch_tables::copy_range(image, scr, a, lsb, n, xs, 0);
        scratch_tables::copy_range(image, scr, b, lsb, n, ys, 0);
        return Job {
            task: Task::Binary(op, n, n),
            narrow: 0,
        };
    }
    scratch_tables::copy_range(image, scr, e, lsb, n, xs, 0);
    Job {
        task: Task::Copied,
        narrow: 0,
    }
}

// The condition and ranges of the sides of a Mux.
fn range_mux(
    image: &[u8],
    scr: &[u32],
    lsb: u32,
    n: u32,
    c: u32,
    t: u32,
    e: u32,
    xs: &mut [u32],
    ys: &mut [u32],
) -> Job
    requires { (Laid image.now scr.now) × (WholeIn image.now scr.now c) × (Within image.now t lsb n) × (Within image.now e lsb n) × (1 ≤ n) × (n ≤ length xs.old) × (length ys.old ≡ length xs.old) }
    ensures { Read (length xs.old) (λ l. build_mux none (whole_net (state_of image.now l scr.now) c 0) (range_nets (state_of image.now l scr.now) t lsb n) (range_nets (state_of image.now l scr.now) e lsb n) l) image.now n result xs.new ys.new }
{
    let k = scratch_tables::expr_net(image, scr, c, 0);
    scratch_tables::copy_range(image, scr, t, lsb, n, xs, 0);
    scratch_tables::copy_range(image, scr, e, lsb, n, ys, 0);
    Job {
        task: Task::Mux(k),
        narrow: 0,
    }
}

// The bits of part p, which begins at bit at of its Concat, that lie between lsb and end: how many they are.
fn copy_piece(
    image: &[u8],
    scr: &[u32],
    p: u32,
    at: u32,
    lsb: u32,
    end: u32,
    out: &mut [u32],
    to: u32,
) -> u32
    requires { (Laid image.now scr.now) × (p < count_at_of image.now 1) × (at ≤ 1024) × (end ≤ 1024) × (to + (min end (at + expr_width image.now p) - max lsb at) ≤ length out.old) }
    ensures { CopiedPiece image.now scr.now p at lsb end out.old to result out.new }
{
    let k = image_fields::expr_width(image, p);
    let lo = lsb.max(at);
    let hi = end.min(at + k);
    if lo < hi {
        scratch_tables::copy_range(image, scr, p, lo - at, hi - lo, out, to as usize);
        return hi - lo;
    }
    0
}

// The nets of the bits from lsb on, n of them, of a Concat's parts, the last part first.
fn copy_pieces(image: &[u8], scr: &[u32], start: u32, count: u32, lsb: u32, n: u32, out: &mut [u32])
    requires { (Laid image.now scr.now) × (PartsIn image.now start count) × (lsb + n ≤ parts_width image.now start count) × (parts_width image.now start count ≤ 1024) × (n ≤ length out.old) }
    ensures { (l : Netlist) → take n out.new ≡ piece_nets (state_of image.now l scr.now) (concat_pieces (exprs_of image.now) (parts_of image.now start count) lsb n) }
{
    let end = lsb + n;
    let mut at: u32 = 0;
    let mut to: u32 = 0;
    for i in (0..count).rev() {
        let p = image_fields::list_word(image, start + i);
        to += copy_piece(image, scr, p, at, lsb, end, out, to);
        at += image_fields::expr_width(image, p);
    }
}

pub fn read_range(
    image: &[u8],
    scr: &[u32],
    e: u32,
    lsb: u32,
    n: u32,
    xs: &mut [u32],
    ys: &mut [u32],
) -> Job
    requires { (AskedRange image.now scr.now e lsb n) × (n ≤ length xs.old) × (length ys.old ≡ length xs.old) }
    ensures { Read (length xs.old) (λ l. build_range (exprs_of image.now) false (state_of image.now l scr.now) e lsb n) image.now n result xs.new ys.new }
{
    let Expression { width, kind } = image_records::expression_at(image, e);
    match kind {
        ExprKind::Signal(p, first) => {
            scratch_tables::copy_signal(image, scr, p, first + lsb, n, xs, 0);
            copied()
        }
        ExprKind::Constant(start) => Job {
            task: Task::Constant(start, width, lsb),
            narrow: 0,
        },
        ExprKind::Unary(op, a) => range_unary(image, scr, e, lsb, n, op, a, xs),
        ExprKind::Binary(op, a, b) => range_binary(image, scr, e, lsb, n, op, a, b, xs, ys),
        ExprKind::Mux(c, t, f) => range_mux(image, scr, lsb, n, c, t, f, xs, ys),
        ExprKind::Concat(start, count) => {
            copy_pieces(image, scr, start, count, lsb, n, xs);
            copied()
        }
        ExprKind::Slice(a, first) => {
            scratch_tables::copy_range(image, scr, a, first + lsb, n, xs, 0);
            copied()
        }
    }
}
