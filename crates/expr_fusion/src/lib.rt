// Which operands an Add takes: an inner Add's with a carry, or its own. Follows `lower_add_with_carry` of struo-synth.
#![tactic(auto)]

ghost use Rattle.std.specs.Prelude.{◌≡◌, ◌+◌, ◌≤◌, ◌<◌};
ghost use Rattle.spec_rtl.specs.Rtl as R;
ghost use Rattle.spec_tests.specs.Options.{option_of};
ghost use Rattle.spec_model.specs.Lowering as model;
ghost use Rattle.expr_laws.specs.Exprs.{exprs_of, Readable};
ghost use Rattle.expr_fusion.specs.Fusion.{In, InList, Inside, parts_of, ZeroStep, carry_by, sum_by, fusion_of, fusion_by, either_side, shown};

use image_records::{ExprKind, Expression, OpClass};

// What an expression's kind says of its being zero.
#[derive(Clone, Copy)]
pub enum ZeroTest {
    Zero,
    NotZero,
    Parts(u32, u32),
}

fn zero_test(image: &[u8], e: u32) -> ZeroTest
    requires { In image.now e }
    ensures { ZeroStep image.now e result }
{
    let Expression { width, kind } = image_records::expression_at(image, e);
    match kind {
        ExprKind::Constant(start) => {
            if expr_constants::low_constant(image, start, width) == 0 {
                return ZeroTest::Zero;
            }
            ZeroTest::NotZero
        }
        ExprKind::Concat(start, count) => ZeroTest::Parts(start, count),
        ExprKind::Signal(_, _) => ZeroTest::NotZero,
        ExprKind::Unary(_, _) => ZeroTest::NotZero,
        ExprKind::Binary(_, _, _) => ZeroTest::NotZero,
        ExprKind::Mux(_, _, _) => ZeroTest::NotZero,
        ExprKind::Slice(_, _) => ZeroTest::NotZero,
    }
}

// Follows nested Concats down to their constants; the expression number falls at each call.
pub fn is_zero_expression(image: &[u8], e: u32) -> bool
    requires { In image.now e }
    ensures { result ≡ model.is_zero_expression (exprs_of image.now) e }
{
    match zero_test(image, e) {
        ZeroTest::Zero => true,
        ZeroTest::NotZero => false,
        ZeroTest::Parts(start, count) => {
            for i in 0..count {
                if !is_zero_expression(image, image_fields::list_word(image, start + i)) {
                    return false;
                }
            }
            true
        }
    }
}

// The expression whose bit 0 is the carry, if there is one. Of a Concat: its last part, one bit wide, under parts that are zero.
fn carry_part(image: &[u8], start: u32, count: u32) -> Option<u32>
    requires { InList image.now start count }
    ensures { option_of result ≡ model.carry_parts (exprs_of image.now) (parts_of image.now start count) }
{
    if count == 0 {
        return None;
    }
    let last = count - 1;
    for i in 0..last {
        if !is_zero_expression(image, image_fields::list_word(image, start + i)) {
            return None;
        }
    }
    let part = image_fields::list_word(image, start + last);
    if image_fields::expr_width(image, part) == 1 {
        return Some(part);
    }
    None
}

// The carry that an expression of width above 1 can be, by its kind.
fn carry_kind(image: &[u8], e: u32) -> Option<u32>
    requires { In image.now e }
    ensures { option_of result ≡ carry_by image.now e }
{
    let Expression { width, kind } = image_records::expression_at(image, e);
    match kind {
        ExprKind::Constant(start) => {
            if expr_constants::low_constant(image, start, width) < 2 {
                return Some(e);
            }
            None
        }
        ExprKind::Concat(start, count) => carry_part(image, start, count),
        ExprKind::Signal(_, _) => None,
        ExprKind::Unary(_, _) => None,
        ExprKind::Binary(_, _, _) => None,
        ExprKind::Mux(_, _, _) => None,
        ExprKind::Slice(_, _) => None,
    }
}

pub fn carry_lsb(image: &[u8], e: u32) -> Option<u32>
    requires { In image.now e }
    ensures { option_of result ≡ model.carry_lsb (exprs_of image.now) e }
{
    if image_fields::expr_width(image, e) == 1 {
        return Some(e);
    }
    carry_kind(image, e)
}

// The operands of an Add, if the operator is one.
fn sum_of(op: image_records::BinaryOp, lhs: u32, rhs: u32) -> Option<(u32, u32)>
    ensures { option_of result ≡ sum_by op lhs rhs }
{
    match image_records::op_class(op) {
        OpClass::Adds => Some((lhs, rhs)),
        OpClass::Ands => None,
        OpClass::Ors => None,
        OpClass::Subtracts => None,
        OpClass::Other => None,
    }
}

pub fn add_operands(image: &[u8], e: u32) -> Option<(u32, u32)>
    requires { In image.now e }
    ensures { option_of result ≡ model.add_operands (exprs_of image.now) e }
{
    match image_records::expression_at(image, e).kind {
        ExprKind::Binary(op, lhs, rhs) => sum_of(op, lhs, rhs),
        ExprKind::Signal(_, _) => None,
        ExprKind::Constant(_) => None,
        ExprKind::Unary(_, _) => None,
        ExprKind::Mux(_, _, _) => None,
        ExprKind::Concat(_, _) => None,
        ExprKind::Slice(_, _) => None,
    }
}

// What is fused: an inner Add's operands and a carry.
#[derive(Clone, Copy)]
pub struct Fused {
    pub lhs: u32,
    pub rhs: u32,
    pub carry: u32,
}

// The inner Add on one side, the carry on the other.
fn fusion_side(image: &[u8], inner: u32, other: u32) -> Option<Fused>
    requires { Inside image.now inner other }
    ensures { fusion_of result ≡ fusion_by image.now inner other }
{
    let (lhs, rhs) = add_operands(image, inner)?;
    let carry = carry_lsb(image, other)?;
    Some(Fused { lhs, rhs, carry })
}

// Fusion is tried on the left, then on the right.
pub fn fusion_test(image: &[u8], lhs: u32, rhs: u32) -> Option<Fused>
    requires { Inside image.now lhs rhs }
    ensures { fusion_of result ≡ either_side image.now lhs rhs }
{
    fusion_side(image, lhs, rhs).or_else(|| fusion_side(image, rhs, lhs))
}

// What an Add lowers: two expressions, and perhaps a carry.
#[derive(Clone, Copy)]
pub struct Operands {
    pub lhs: u32,
    pub rhs: u32,
    pub carry: Option<u32>,
}

pub fn add_with_carry(image: &[u8], lhs: u32, rhs: u32) -> Operands
    requires { Inside image.now lhs rhs }
    ensures { shown result ≡ model.operands_of (exprs_of image.now) R.Add lhs rhs }
{
    match fusion_test(image, lhs, rhs) {
        Some(fused) => Operands {
            lhs: fused.lhs,
            rhs: fused.rhs,
            carry: Some(fused.carry),
        },
        None => Operands {
            lhs,
            rhs,
            carry: None,
        },
    }
}
