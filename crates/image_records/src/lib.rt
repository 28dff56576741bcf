// The records of the image as values: expressions, signals, assignments, registers and memories; operators by class.
#![tactic(auto)]

ghost use Rattle.std.specs.Prelude.{◌≡◌, ◌≤◌};
ghost use Rattle.spec_rules.specs.Image.{direction, signal_at, assign_at, register_at, memory_at};
ghost use Rattle.image_records.specs.Others.{direction_means, signal_means, assignment_means, control_means, enable_means, reset_means, register_means, port_means, second_means, memory_means, control_in, enable_in, reset_in, port_in, second_in};
ghost use Rattle.image_records.specs.Expr.{unary_of, binary_of, kind_of, expression_in, Decoded};
ghost use Rattle.image_records.specs.OpClass.{op_class_of, bitwise};

use image_numbers::ABSENT;

#[derive(Clone, Copy)]
pub enum UnaryOp {
    BitNot,
    LogicNot,
    ReduceOr,
    ReduceAnd,
    ReduceXor,
}

#[derive(Clone, Copy)]
pub enum BinaryOp {
    And,
    Or,
    Xor,
    Add,
    Sub,
    Mul,
    Equal,
    NotEqual,
    LessThanUnsigned,
    LessThanSigned,
    LessOrEqualUnsigned,
    LessOrEqualSigned,
    GreaterThanUnsigned,
    GreaterThanSigned,
    GreaterOrEqualUnsigned,
    GreaterOrEqualSigned,
    ShiftLeft,
    ShiftRightLogical,
    ShiftRightArithmetic,
}

// Operands as in the image: a constant and a Concat name their list words.
#[derive(Clone, Copy)]
pub enum ExprKind {
    Signal(u32, u32),
    Constant(u32),
    Unary(UnaryOp, u32),
    Binary(BinaryOp, u32, u32),
    Mux(u32, u32, u32),
    Concat(u32, u32),
    Slice(u32, u32),
}

#[derive(Clone, Copy)]
pub struct Expression {
    pub width: u32,
    pub kind: ExprKind,
}

const UNARY: [UnaryOp; 5] = [
    UnaryOp::BitNot,
    UnaryOp::LogicNot,
    UnaryOp::ReduceOr,
    UnaryOp::ReduceAnd,
    UnaryOp::ReduceXor,
];

// The unary operator with a number.
impl From<u32> for UnaryOp {
    ghost from_gives = { λ n op. op ≡ unary_of n };

    fn from(n: u32) -> UnaryOp {
        if n < 5 {
            UNARY[n as usize]
        } else {
            UnaryOp::BitNot
        }
    }
}

const BINARY: [BinaryOp; 19] = [
    BinaryOp::And,
    BinaryOp::Or,
    BinaryOp::Xor,
    BinaryOp::Add,
    BinaryOp::Sub,
    BinaryOp::Mul,
    BinaryOp::Equal,
    BinaryOp::NotEqual,
    BinaryOp::LessThanUnsigned,
    BinaryOp::LessThanSigned,
    BinaryOp::LessOrEqualUnsigned,
    BinaryOp::LessOrEqualSigned,
    BinaryOp::GreaterThanUnsigned,
    BinaryOp::GreaterThanSigned,
    BinaryOp::GreaterOrEqualUnsigned,
    BinaryOp::GreaterOrEqualSigned,
    BinaryOp::ShiftLeft,
    BinaryOp::ShiftRightLogical,
    BinaryOp::ShiftRightArithmetic,
];

// The binary operator with a number.
impl From<u32> for BinaryOp {
    ghost from_gives = { λ n op. op ≡ binary_of n };

    fn from(n: u32) -> BinaryOp {
        if n < 19 {
            BINARY[n as usize]
        } else {
            BinaryOp::And
        }
    }
}

// The kind with a number, and its operands.
pub fn kind(k: u32, a: u32, b: u32, c: u32) -> ExprKind
    ensures { result ≡ kind_of k a b c }
{
    match k {
        0 => ExprKind::Signal(a, b),
        1 => ExprKind::Constant(a),
        2 => ExprKind::Unary(a.into(), b),
        3 => ExprKind::Binary(a.into(), b, c),
        4 => ExprKind::Mux(a, b, c),
        5 => ExprKind::Concat(a, b),
        _ => ExprKind::Slice(a, b),
    }
}

// The expression record that some bytes begin with.
fn first_expression(p: &[u8]) -> Expression
    ensures { result ≡ expression_in p.now 0 }
{
    let k = image_fields::word(p, 0);
    let width = image_fields::word(p, 4);
    let a = image_fields::word(p, 8);
    let b = image_fields::word(p, 12);
    let c = image_fields::word(p, 16);
    Expression {
        width,
        kind: kind(k, a, b, c),
    }
}

// Expression record r near or past the end of the part.
fn last_expression(part: &[u8], r: u32) -> Expression
    ensures { result ≡ expression_in part.now r }
{
    let k = image_fields::field(part, image_fields::EXPRESSIONS, r, 0);
    let width = image_fields::field(part, image_fields::EXPRESSIONS, r, 1);
    let a = image_fields::field(part, image_fields::EXPRESSIONS, r, 2);
    let b = image_fields::field(part, image_fields::EXPRESSIONS, r, 3);
    let c = image_fields::field(part, image_fields::EXPRESSIONS, r, 4);
    Expression {
        width,
        kind: kind(k, a, b, c),
    }
}

// Expression record r of the part of the image that begins at the expressions' offset. A record that is there whole is lent by itself, so
// that its five words are read without a test.
pub fn expression_in(part: &[u8], r: u32) -> Expression
    ensures { result ≡ expression_in part.now r }
{
    let at = 20 * (r as usize);
    if at + 20 <= part.len() {
        return first_expression(&part[at..at + 20]);
    }
    last_expression(part, r)
}

// Expression r of the image.
pub fn expression_at(image: &[u8], r: u32) -> Expression
    ensures { Decoded image.now r result }
{
    expression_in(image_fields::section(image, image_fields::EXPRESSIONS), r)
}

#[derive(Clone, Copy)]
pub enum Direction {
    Internal,
    Input,
    Output,
}

#[derive(Clone, Copy)]
pub struct Signal {
    pub width: u32,
    pub direction: Direction,
}

#[derive(Clone, Copy)]
pub struct Assignment {
    pub signal: u32,
    pub lsb: u32,
    pub width: u32,
    pub value: u32,
}

// A control's signal, and the level at which it is active.
#[derive(Clone, Copy)]
pub struct Control {
    pub signal: u32,
    pub level: bool,
}

#[derive(Clone, Copy)]
pub struct Reset {
    pub control: Control,
    pub asynchronous: bool,
    pub value: u32,
}

#[derive(Clone, Copy)]
pub struct Register {
    pub target: u32,
    pub next: u32,
    pub clock: u32,
    pub rising: bool,
    pub enable: Option<Control>,
    pub reset: Option<Reset>,
}

#[derive(Clone, Copy)]
pub struct MemoryPort {
    pub read_address: u32,
    pub read_data: u32,
    pub read_enable: Option<Control>,
    pub write_address: u32,
    pub write_data: u32,
    pub write_enable: Control,
    pub clock: u32,
    pub rising: bool,
}

#[derive(Clone, Copy)]
pub struct Memory {
    pub depth: u32,
    pub style: u32,
    pub first: MemoryPort,
    pub second: Option<MemoryPort>,
}

// The direction with a number.
impl From<u32> for Direction {
    ghost from_gives = { λ n d. direction_means d ≡ direction n };

    fn from(n: u32) -> Direction {
        match n {
            1 => Direction::Input,
            2 => Direction::Output,
            _ => Direction::Internal,
        }
    }
}

// Signal r of the image.
pub fn signal_at(image: &[u8], r: u32) -> Signal
    ensures { signal_means result ≡ signal_at image.now r }
{
    let part = image_fields::section(image, image_fields::SIGNALS);
    let width = image_fields::field(part, image_fields::SIGNALS, r, 2);
    let direction = Direction::from(image_fields::field(part, image_fields::SIGNALS, r, 3));
    Signal { width, direction }
}

// Assignment r of the image.
pub fn assignment_at(image: &[u8], r: u32) -> Assignment
    ensures { assignment_means result ≡ assign_at image.now r }
{
    let part = image_fields::section(image, image_fields::ASSIGNMENTS);
    let signal = image_fields::field(part, image_fields::ASSIGNMENTS, r, 0);
    let lsb = image_fields::field(part, image_fields::ASSIGNMENTS, r, 1);
    let width = image_fields::field(part, image_fields::ASSIGNMENTS, r, 2);
    let value = image_fields::field(part, image_fields::ASSIGNMENTS, r, 3);
    Assignment {
        signal,
        lsb,
        width,
        value,
    }
}

// The control in fields f and f + 1 of record r of section k.
fn control_in(part: &[u8], k: u32, r: u32, f: u32) -> Control
    requires { f ≤ 32 }
    ensures { control_means result ≡ control_in part.now k r f }
{
    let signal = image_fields::field(part, k, r, f);
    let polarity = image_fields::field(part, k, r, f + 1);
    Control {
        signal,
        level: polarity == 0,
    }
}

// The same of a control that may be absent.
fn enable_in(part: &[u8], k: u32, r: u32, f: u32) -> Option<Control>
    requires { f ≤ 32 }
    ensures { enable_means result ≡ enable_in part.now k r f }
{
    if image_fields::field(part, k, r, f) == ABSENT {
        return None;
    }
    Some(control_in(part, k, r, f))
}

// The reset of register r.
fn reset_in(part: &[u8], r: u32) -> Option<Reset>
    ensures { reset_means result ≡ reset_in part.now r }
{
    if image_fields::field(part, image_fields::REGISTERS, r, 8) == ABSENT {
        return None;
    }
    let control = control_in(part, image_fields::REGISTERS, r, 8);
    let mode = image_fields::field(part, image_fields::REGISTERS, r, 10);
    let value = image_fields::field(part, image_fields::REGISTERS, r, 11);
    Some(Reset {
        control,
        asynchronous: mode == 1,
        value,
    })
}

// Register r of the image.
pub fn register_at(image: &[u8], r: u32) -> Register
    ensures { register_means result ≡ register_at image.now r }
{
    let part = image_fields::section(image, image_fields::REGISTERS);
    let target = image_fields::field(part, image_fields::REGISTERS, r, 2);
    let next = image_fields::field(part, image_fields::REGISTERS, r, 3);
    let clock = image_fields::field(part, image_fields::REGISTERS, r, 4);
    let edge = image_fields::field(part, image_fields::REGISTERS, r, 5);
    let enable = enable_in(part, image_fields::REGISTERS, r, 6);
    let reset = reset_in(part, r);
    Register {
        target,
        next,
        clock,
        rising: edge == 0,
        enable,
        reset,
    }
}

// The port of memory r whose fields begin at f.
fn port_in(part: &[u8], r: u32, f: u32) -> MemoryPort
    requires { f ≤ 17 }
    ensures { port_means result ≡ port_in part.now r f }
{
    let read_address = image_fields::field(part, image_fields::MEMORIES, r, f);
    let read_data = image_fields::field(part, image_fields::MEMORIES, r, f + 1);
    let read_enable = enable_in(part, image_fields::MEMORIES, r, f + 2);
    let write_address = image_fields::field(part, image_fields::MEMORIES, r, f + 4);
    let write_data = image_fields::field(part, image_fields::MEMORIES, r, f + 5);
    let write_enable = control_in(part, image_fields::MEMORIES, r, f + 6);
    let clock = image_fields::field(part, image_fields::MEMORIES, r, f + 8);
    let edge = image_fields::field(part, image_fields::MEMORIES, r, f + 9);
    MemoryPort {
        read_address,
        read_data,
        read_enable,
        write_address,
        write_data,
        write_enable,
        clock,
        rising: edge == 0,
    }
}

// The second port of memory r.
fn second_in(part: &[u8], r: u32) -> Option<MemoryPort>
    ensures { second_means result ≡ second_in part.now r }
{
    if image_fields::field(part, image_fields::MEMORIES, r, image_fields::HAS_SECOND) == 0 {
        return None;
    }
    Some(port_in(part, r, image_fields::SECOND_PORT))
}

// Memory r of the image.
pub fn memory_at(image: &[u8], r: u32) -> Memory
    ensures { memory_means result ≡ memory_at image.now r }
{
    let part = image_fields::section(image, image_fields::MEMORIES);
    let depth = image_fields::field(part, image_fields::MEMORIES, r, 2);
    let style = image_fields::field(part, image_fields::MEMORIES, r, image_fields::STYLE);
    let first = port_in(part, r, image_fields::FIRST_PORT);
    let second = second_in(part, r);
    Memory {
        depth,
        style,
        first,
        second,
    }
}

// ---- operators by class ----

// What the ranges and the fusion ask of an operator.
#[derive(Clone, Copy)]
pub enum OpClass {
    Ands,
    Ors,
    Adds,
    Subtracts,
    Other,
}

#[tactic(auto, unfolding(crate::specs::OpClass::op_class_of))]
pub fn op_class(op: BinaryOp) -> OpClass
    ensures { result ≡ op_class_of op }
{
    match op {
        BinaryOp::And => OpClass::Ands,
        BinaryOp::Or | BinaryOp::Xor => OpClass::Ors,
        BinaryOp::Add => OpClass::Adds,
        BinaryOp::Sub => OpClass::Subtracts,
        _ => OpClass::Other,
    }
}

// And, Or and Xor work bit by bit.
#[tactic(auto, unfolding(crate::specs::OpClass::bitwise, crate::specs::Expr::binary_means))]
pub fn is_bitwise(op: BinaryOp) -> bool
    ensures { result ≡ bitwise op }
{
    matches!(op, BinaryOp::And | BinaryOp::Or | BinaryOp::Xor)
}
