// Trees of gates over a list of nets, level by level in place: the result is the list's first net.
#![tactic(auto)]

ghost use Rattle.std.specs.Prelude.{◌≡◌, Bool, ◌+◌, ◌/◌, ◌≤◌, ◌<◌, length, take};
ghost use Rattle.spec_model.specs.Builder.{each, add_not};
ghost use Rattle.spec_model.specs.Lowering.{level, reduce_tree, equal_words};
ghost use Rattle.net_view.specs.View.{netlist_of};
ghost use Rattle.net_index.specs.Index.{Held};
ghost use Rattle.net_fold.specs.Values.{Fills};
ghost use Rattle.op_bits.specs.Kinds.{gate_of};

use net_nodes::Full;
use op_bits::{Gate, Pair};

// A level. Pair i gives net i; the odd net follows, if there is one (if not, it is past the new end).
fn level(net: &mut [u32], idx: &mut [u32], n: u32, g: Gate, xs: &mut [u32]) -> Result<(), Full>
    requires { (Held n net.old idx.old) × (1 < length xs.old) }
    ensures { Fills (level (gate_of g) xs.old (netlist_of n net.old)) n result (take ((length xs.old + 1) / 2) xs.new) net.new idx.new }
{
    let half = xs.len() / 2;
    for i in 0..half {
        xs[i] = op_bits::add_gate(net, idx, n, g, xs[2 * i], xs[2 * i + 1])?;
    }
    xs[half] = xs[xs.len() - 1];
    Ok(())
}

pub fn reduce_tree(
    net: &mut [u32],
    idx: &mut [u32],
    n: u32,
    g: Gate,
    xs: &mut [u32],
) -> Result<(), Full>
    requires { (Held n net.old idx.old) × (0 < length xs.old) }
    ensures { (identity : Bool) → Fills (reduce_tree (gate_of g) identity xs.old (netlist_of n net.old)) n result (take 1 xs.new) net.new idx.new }
{
    let mut len = xs.len();
    while 1 < len {
        level(net, idx, n, g, &mut xs[..len])?;
        len = (len + 1) / 2;
    }
    Ok(())
}

// The first net turned round.
pub fn not_first(net: &mut [u32], idx: &mut [u32], n: u32, xs: &mut [u32]) -> Result<(), Full>
    requires { (Held n net.old idx.old) × (0 < length xs.old) }
    ensures { Fills (each add_not (take 1 xs.old) (netlist_of n net.old)) n result (take 1 xs.new) net.new idx.new }
{
    xs[0] = net_gates::add_not(net, idx, n, xs[0])?;
    Ok(())
}

pub fn equal_words(
    net: &mut [u32],
    idx: &mut [u32],
    n: u32,
    xs: &mut [u32],
    ys: &[u32],
) -> Result<(), Full>
    requires { (Held n net.old idx.old) × (0 < length xs.old) × (length xs.old ≡ length ys.now) }
    ensures { Fills (equal_words xs.old ys.now (netlist_of n net.old)) n result (take 1 xs.new) net.new idx.new }
{
    op_bits::pairwise(net, idx, n, Pair::Equal, xs, ys)?;
    reduce_tree(net, idx, n, Gate::And, xs)
}
