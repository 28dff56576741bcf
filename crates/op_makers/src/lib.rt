// A binary operator by what makes it.
#![tactic(auto)]

ghost use Rattle.std.specs.Prelude.{◌≡◌};
ghost use Rattle.op_makers.specs.Class.{class_of};

use image_records::BinaryOp;
use net_cells::ComparisonOp;
use net_fold::ArithmeticOp;
use op_bits::Gate;
use op_shifts::ShiftKind;

#[derive(Clone, Copy)]
pub enum Class {
    Bitwise(Gate),
    Arithmetic(ArithmeticOp),
    Equal,
    NotEqual,
    Compare(ComparisonOp),
    CompareBack(ComparisonOp),
    Shift(ShiftKind),
}

impl From<BinaryOp> for Class {
    ghost from_gives = { λ op c. c ≡ class_of op };

    #[tactic(auto, unfolding(crate::specs::Class::class_of))]
    fn from(op: BinaryOp) -> Class {
        match op {
            BinaryOp::And => Class::Bitwise(Gate::And),
            BinaryOp::Or => Class::Bitwise(Gate::Or),
            BinaryOp::Xor => Class::Bitwise(Gate::Xor),
            BinaryOp::Add => Class::Arithmetic(ArithmeticOp::Add),
            BinaryOp::Sub => Class::Arithmetic(ArithmeticOp::Subtract),
            BinaryOp::Mul => Class::Arithmetic(ArithmeticOp::Multiply),
            BinaryOp::Equal => Class::Equal,
            BinaryOp::NotEqual => Class::NotEqual,
            BinaryOp::LessThanUnsigned => Class::Compare(ComparisonOp::LessThanUnsigned),
            BinaryOp::LessThanSigned => Class::Compare(ComparisonOp::LessThanSigned),
            BinaryOp::LessOrEqualUnsigned => Class::Compare(ComparisonOp::LessOrEqualUnsigned),
            BinaryOp::LessOrEqualSigned => Class::Compare(ComparisonOp::LessOrEqualSigned),
            BinaryOp::GreaterThanUnsigned => Class::CompareBack(ComparisonOp::LessThanUnsigned),
            BinaryOp::GreaterThanSigned => Class::CompareBack(ComparisonOp::LessThanSigned),
            BinaryOp::GreaterOrEqualUnsigned => Class::CompareBack(
                ComparisonOp::LessOrEqualUnsigned,
            ),
            BinaryOp::GreaterOrEqualSigned => Class::CompareBack(ComparisonOp::LessOrEqualSigned),
            BinaryOp::ShiftLeft => Class::Shift(ShiftKind::Left),
            BinaryOp::ShiftRightLogical => Class::Shift(ShiftKind::Right),
            BinaryOp::ShiftRightArithmetic => Class::Shift(ShiftKind::Arithmetic),
        }
    }
}
