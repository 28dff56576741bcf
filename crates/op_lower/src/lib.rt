// The operators of expressions on the nets of finished operands. The result takes the place of the first operand: its front, where it is one bit.
#![tactic(auto)]

ghost use Rattle.std.specs.Prelude.{◌≡◌, ◌≤◌, ◌<◌, length, take};
ghost use Rattle.spec_model.specs.Lowering.{lower_unary, lower_binary};
ghost use Rattle.net_view.specs.View.{netlist_of};
ghost use Rattle.net_index.specs.Index.{Held};
ghost use Rattle.image_records.specs.Expr.{unary_means, binary_means};
ghost use Rattle.net_gates.specs.Nots.{PlainNots};
ghost use Rattle.net_fold.specs.Values.{Fills};
ghost use Rattle.op_makers.specs.Class.{class_of};
ghost use Rattle.op_lower.specs.Operators.{unary_width, class_width, OperandsFit, lower_class, logic_not, not_equal};

use image_records::{BinaryOp, UnaryOp};
use net_nodes::Full;
use op_bits::{Gate, Pair};
use op_makers::Class;

fn logic_not(net: &mut [u32], idx: &mut [u32], n: u32, xs: &mut [u32]) -> Result<(), Full>
    requires { (Held n net.old idx.old) × (0 < length xs.old) }
    ensures { Fills (logic_not xs.old (netlist_of n net.old)) n result (take 1 xs.new) net.new idx.new }
{
    op_trees::reduce_tree(net, idx, n, Gate::Or, xs)?;
    op_trees::not_first(net, idx, n, xs)
}

pub fn lower_unary(
    net: &mut [u32],
    idx: &mut [u32],
    n: u32,
    op: UnaryOp,
    xs: &mut [u32],
) -> Result<(), Full>
    requires { (Held n net.old idx.old) × (0 < length xs.old) }
    ensures { Fills (lower_unary (unary_means op) xs.old (netlist_of n net.old)) n result (take (unary_width op (length xs.old)) xs.new) net.new idx.new }
{
    match op {
        UnaryOp::BitNot => op_bits::not_bits(net, idx, n, xs),
        UnaryOp::LogicNot => logic_not(net, idx, n, xs),
        UnaryOp::ReduceOr => op_trees::reduce_tree(net, idx, n, Gate::Or, xs),
        UnaryOp::ReduceAnd => op_trees::reduce_tree(net, idx, n, Gate::And, xs),
        UnaryOp::ReduceXor => op_trees::reduce_tree(net, idx, n, Gate::Xor, xs),
    }
}

fn not_equal_words(
    net: &mut [u32],
    idx: &mut [u32],
    n: u32,
    xs: &mut [u32],
    ys: &[u32],
) -> Result<(), Full>
    requires { (Held n net.old idx.old) × (0 < length xs.old) × (length xs.old ≡ length ys.now) }
    ensures { Fills (not_equal xs.old ys.now (netlist_of n net.old)) n result (take 1 xs.new) net.new idx.new }
{
    op_trees::equal_words(net, idx, n, xs, ys)?;
    op_trees::not_first(net, idx, n, xs)
}

fn lower_class(
    net: &mut [u32],
    idx: &mut [u32],
    n: u32,
    class: Class,
    xs: &mut [u32],
    ys: &[u32],
) -> Result<(), Full>
    requires { (Held n net.old idx.old) × (0 < length xs.old) × (length xs.old ≤ 1024) × (OperandsFit class (length xs.old) (length ys.now)) × (PlainNots (netlist_of n net.old)) }
    ensures { Fills (lower_class class xs.old ys.now (netlist_of n net.old)) n result (take (class_width class (length xs.old)) xs.new) net.new idx.new }
{
    match class {
        Class::Bitwise(g) => op_bits::pairwise(net, idx, n, Pair::Gate(g), xs, ys),
        Class::Arithmetic(op) => net_cells::arithmetic(net, idx, n, op, None, xs, ys),
        Class::Equal => op_trees::equal_words(net, idx, n, xs, ys),
        Class::NotEqual => not_equal_words(net, idx, n, xs, ys),
        Class::Compare(op) => {
            xs[0] = net_cells::comparison(net, idx, n, op, xs, ys)?;
            Ok(())
        }
        Class::CompareBack(op) => {
            xs[0] = net_cells::comparison(net, idx, n, op, ys, xs)?;
            Ok(())
        }
        Class::Shift(kind) => op_shifts::shift(net, idx, n, kind, xs, ys),
    }
}

pub fn lower_binary(
    net: &mut [u32],
    idx: &mut [u32],
    n: u32,
    op: BinaryOp,
    xs: &mut [u32],
    ys: &[u32],
) -> Result<(), Full>
    requires { (Held n net.old idx.old) × (0 < length xs.old) × (length xs.old ≤ 1024) × (OperandsFit (class_of op) (length xs.old) (length ys.now)) × (PlainNots (netlist_of n net.old)) }
    ensures { Fills (lower_binary (binary_means op) xs.old ys.now (netlist_of n net.old)) n result (take (class_width (class_of op) (length xs.old)) xs.new) net.new idx.new }
{
    lower_class(net, idx, n, Class::from(op), xs, ys)
}
