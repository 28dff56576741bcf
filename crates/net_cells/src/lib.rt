// Word cells: equal ones are made a single time. Arithmetic on constants makes constants and no cell; a comparison of constants is a cell.
#![tactic(auto)]

ghost use Rattle.std.specs.Prelude.{◌≡◌, ◌+◌, ◌-◌, ◌*◌, ◌≤◌, ◌<◌, length, take};
ghost use Rattle.spec_model.specs.Words.{source, comparison_key, count, arithmetic_key};
ghost use Rattle.spec_model.specs.Builder.{or_made, add_nodes, add_recorded, comparison_word, arithmetic_word};
ghost use Rattle.spec_model.specs.WordCells as W;
ghost use Rattle.spec_tests.specs.Options.{option_of};
ghost use Rattle.net_view.specs.View.{netlist_of};
ghost use Rattle.net_index.specs.Index.{Held};
ghost use Rattle.net_fold.specs.Values.{op_of, Fills};
ghost use Rattle.net_cells.specs.Cells.{Compares, Computes, CellRoom, GivesRun, CellKey, OneWidth, compare_of};

use image_numbers::*;
use net_fold::ArithmeticOp;
use net_nodes::Full;

// ---- a new cell ----

// A new cell: its output nodes, its record, its place in the index. The record is whole but for its last b words, the outputs.
pub fn add_cell(
    net: &mut [u32],
    idx: &mut [u32],
    n: u32,
    h: u32,
    kind: u32,
    owner: u32,
    cell: &mut [u32],
    b: u32,
) -> Result<u32, Full>
    requires { (b ≤ length cell.old) × (CellRoom n h kind b (take (length cell.old - b) cell.old) net.old idx.old) }
    ensures { GivesRun (add_recorded (take (length cell.old - b) cell.old) (add_nodes (source kind owner) 0 b (netlist_of n net.old))) n b result net.new idx.new }
{
    let first = net_ports::add_nodes(net, n, kind, owner, 0, b)?;
    let used = net[LIST_USED];
    let at = cell.len() - b as usize;
    net_ports::put_run(&mut cell[at..], first);
    net_records::push_record(net, n, cell)?;
    net_cell_index::link_cell(idx, n, first, h, used);
    Ok(first)
}

// ---- comparisons ----

#[derive(Clone, Copy)]
pub enum ComparisonOp {
    LessThanUnsigned,
    LessOrEqualUnsigned,
    LessThanSigned,
    LessOrEqualSigned,
}

// The word of a comparison's record.
impl From<ComparisonOp> for u32 {
    ghost from_gives = { λ op w. w ≡ comparison_word (compare_of op) };

    fn from(op: ComparisonOp) -> u32 {
        match op {
            ComparisonOp::LessThanUnsigned => 0,
            ComparisonOp::LessOrEqualUnsigned => 1,
            ComparisonOp::LessThanSigned => 2,
            ComparisonOp::LessOrEqualSigned => 3,
        }
    }
}

// A comparison's key in front of a buffer.
fn put_comparison(buffer: &mut [u32], op: ComparisonOp, lhs: &[u32], rhs: &[u32])
    requires { (length rhs.now ≡ length lhs.now) × (length lhs.now ≤ 1024) × (3 + 2 * length lhs.now ≤ length buffer.old) }
    ensures { take (3 + 2 * length lhs.now) buffer.new ≡ comparison_key (comparison_word (compare_of op)) lhs.now rhs.now }
{
    buffer[0] = COMPARISON_RECORD;
    buffer[1] = u32::from(op);
    buffer[2] = lhs.len() as u32;
    net_records::put_words(buffer, 3, lhs);
    let at = 3 + lhs.len();
    net_records::put_words(buffer, at, rhs);
}

// The comparison whose record is given but for its output, the last word: shared, or made.
fn compare(net: &mut [u32], idx: &mut [u32], n: u32, cell: &mut [u32]) -> Result<u32, Full>
    requires { (Held n net.old idx.old) × (0 < length cell.old) × (CellKey 11 1 (take (length cell.old - 1) cell.old)) }
    ensures { GivesRun (or_made (W.find_cell (take (length cell.old - 1) cell.old) (netlist_of n net.old).records) (netlist_of n net.old) (add_recorded (take (length cell.old - 1) cell.old) (add_nodes (source 11 (count 4 (netlist_of n net.old).records)) 0 1 (netlist_of n net.old)))) n 1 result net.new idx.new }
{
    let k = cell.len() - 1;
    let h = net_cell_index::hash_key(&cell[..k], n);
    match net_cell_index::find_cell(net, idx, n, h, &cell[..k]) {
        Some(p) => Ok(net[p]),
        None => {
            let owner = net[COMPARISON_COUNT];
            add_cell(net, idx, n, h, COMPARISON_OUTPUT, owner, cell, 1)
        }
    }
}

// The comparison of two operands; the words lent last are room for its record.
fn comparison_in(
    net: &mut [u32],
    idx: &mut [u32],
    n: u32,
    op: ComparisonOp,
    lhs: &[u32],
    rhs: &[u32],
    cell: &mut [u32],
) -> Result<u32, Full>
    requires { (Held n net.old idx.old) × (length rhs.now ≡ length lhs.now) × (0 < length lhs.now) × (length lhs.now ≤ 1024) × (length cell.old ≡ 4 + 2 * length lhs.now) }
    ensures { Compares op lhs.now rhs.now n net.old result net.new idx.new }
{
    put_comparison(cell, op, lhs, rhs);
    compare(net, idx, n, cell)
}

// The comparison of two operands, whose record has at most N words.
fn comparison_of<const N: usize>(
    net: &mut [u32],
    idx: &mut [u32],
    n: u32,
    op: ComparisonOp,
    lhs: &[u32],
    rhs: &[u32],
) -> Result<u32, Full>
    requires { (Held n net.old idx.old) × (length rhs.now ≡ length lhs.now) × (0 < length lhs.now) × (length lhs.now ≤ 1024) × (4 + 2 * length lhs.now ≤ N) × (N ≤ 2052) }
    ensures { Compares op lhs.now rhs.now n net.old result net.new idx.new }
{
    let mut cell = [0u32; N];
    let len = 4 + 2 * lhs.len();
    comparison_in(net, idx, n, op, lhs, rhs, &mut cell[..len])
}

// An equal comparison shared, else a new one; the answer is its output.
pub fn comparison(
    net: &mut [u32],
    idx: &mut [u32],
    n: u32,
    op: ComparisonOp,
    lhs: &[u32],
    rhs: &[u32],
) -> Result<u32, Full>
    requires { (Held n net.old idx.old) × (length rhs.now ≡ length lhs.now) × (0 < length lhs.now) × (length lhs.now ≤ 1024) }
    ensures { Compares op lhs.now rhs.now n net.old result net.new idx.new }
{
    if lhs.len() <= 64 {
        return comparison_of::<132>(net, idx, n, op, lhs, rhs);
    }
    comparison_of::<2052>(net, idx, n, op, lhs, rhs)
}

// ---- arithmetic ----

// An arithmetic cell's key in front of a buffer.
fn put_arithmetic(
    buffer: &mut [u32],
    op: ArithmeticOp,
    carry: Option<u32>,
    lhs: &[u32],
    rhs: &[u32],
)
    requires { (length rhs.now ≡ length lhs.now) × (length lhs.now ≤ 1024) × (4 + 2 * length lhs.now ≤ length buffer.old) }
    ensures { take (4 + 2 * length lhs.now) buffer.new ≡ arithmetic_key (arithmetic_word (op_of op)) lhs.now rhs.now (option_of carry) }
{
    buffer[0] = ARITHMETIC_RECORD;
    buffer[1] = u32::from(op);
    buffer[2] = lhs.len() as u32;
    buffer[3] = carry.unwrap_or(ABSENT);
    net_records::put_words(buffer, 4, lhs);
    let at = 4 + lhs.len();
    net_records::put_words(buffer, at, rhs);
}

// A new arithmetic cell, its outputs in out.
fn add_arithmetic(
    net: &mut [u32],
    idx: &mut [u32],
    n: u32,
    h: u32,
    cell: &mut [u32],
    out: &mut [u32],
) -> Result<(), Full>
    requires { (length out.old ≤ length cell.old) × (length out.old ≤ 1024) × (CellRoom n h 10 (length out.old) (take (length cell.old - length out.old) cell.old) net.old idx.old) }
    ensures { Fills (add_recorded (take (length cell.old - length out.old) cell.old) (add_nodes (source 10 (count 3 (netlist_of n net.old).records)) 0 (length out.old) (netlist_of n net.old))) n result out.new net.new idx.new }
{
    let owner = net[ARITHMETIC_COUNT];
    let w = out.len() as u32;
    let first = add_cell(net, idx, n, h, ARITHMETIC_OUTPUT, owner, cell, w)?;
    net_ports::put_run(out, first);
    Ok(())
}

// The arithmetic cell whose record is given but for its outputs: shared, folded or made; x and y are room.
fn compute(
    net: &mut [u32],
    idx: &mut [u32],
    n: u32,
    op: ArithmeticOp,
    lhs: &[u32],
    rhs: &[u32],
    carry: Option<u32>,
    out: &mut [u32],
    x: &mut [u32],
    y: &mut [u32],
    cell: &mut [u32],
) -> Result<(), Full>
    requires { (Held n net.old idx.old) × (OneWidth lhs.now rhs.now out.old x.old y.old) × (length lhs.now ≤ length cell.old) × (take (length cell.old - length lhs.now) cell.old ≡ arithmetic_key (arithmetic_word (op_of op)) lhs.now rhs.now (option_of carry)) }
    ensures { Computes op lhs.now rhs.now carry n net.old result out.new net.new idx.new }
{
    let k = cell.len() - lhs.len();
    let h = net_cell_index::hash_key(&cell[..k], n);
    match net_cell_index::find_cell(net, idx, n, h, &cell[..k]) {
        Some(p) => {
            let end = p + out.len();
            net_nodes::copy(out, &net[p..end]);
            Ok(())
        }
        None => {
            if net_fold::fold_constant_arithmetic(net, op, lhs, rhs, carry, out, x, y) {
                return net_fold::add_constants(net, idx, n, out);
            }
            add_arithmetic(net, idx, n, h, cell, out)
        }
    }
}

// The cell of two operands, its outputs in out; x, y and the words lent last are room, those for its record.
fn arithmetic_in(
    net: &mut [u32],
    idx: &mut [u32],
    n: u32,
    op: ArithmeticOp,
    lhs: &[u32],
    rhs: &[u32],
    carry: Option<u32>,
    out: &mut [u32],
    x: &mut [u32],
    y: &mut [u32],
    cell: &mut [u32],
) -> Result<(), Full>
    requires { (Held n net.old idx.old) × (OneWidth lhs.now rhs.now out.old x.old y.old) × (length cell.old ≡ 4 + 3 * length lhs.now) }
    ensures { Computes op lhs.now rhs.now carry n net.old result out.new net.new idx.new }
{
    put_arithmetic(cell, op, carry, lhs, rhs);
    compute(net, idx, n, op, lhs, rhs, carry, out, x, y, cell)
}

// The cell of two operands of at most W bits, whose record has at most R words.
fn arithmetic_of<const W: usize, const R: usize>(
    net: &mut [u32],
    idx: &mut [u32],
    n: u32,
    op: ArithmeticOp,
    carry: Option<u32>,
    xs: &mut [u32],
    ys: &[u32],
) -> Result<(), Full>
    requires { (Held n net.old idx.old) × (0 < length xs.old) × (length xs.old ≡ length ys.now) × (length xs.old ≤ 1024) × (length xs.old ≤ W) × (W ≤ 1024) × (4 + 3 * length xs.old ≤ R) × (R ≤ 3076) }
    ensures { Computes op xs.old ys.now carry n net.old result xs.new net.new idx.new }
{
    let mut lhs = [0u32; W];
    let mut x = [0u32; W];
    let mut y = [0u32; W];
    let mut cell = [0u32; R];
    let w = xs.len();
    let len = 4 + 3 * w;
    net_nodes::copy(&mut lhs[..w], xs);
    arithmetic_in(
        net,
        idx,
        n,
        op,
        &lhs[..w],
        ys,
        carry,
        xs,
        &mut x[..w],
        &mut y[..w],
        &mut cell[..len],
    )
}

// Constant operands folded, an equal cell shared, else a new one; the outputs take the place of the first operand.
pub fn arithmetic(
    net: &mut [u32],
    idx: &mut [u32],
    n: u32,
    op: ArithmeticOp,
    carry: Option<u32>,
    xs: &mut [u32],
    ys: &[u32],
) -> Result<(), Full>
    requires { (Held n net.old idx.old) × (0 < length xs.old) × (length xs.old ≡ length ys.now) × (length xs.old ≤ 1024) }
    ensures { Computes op xs.old ys.now carry n net.old result xs.new net.new idx.new }
{
    if xs.len() <= 64 {
        return arithmetic_of::<64, 196>(net, idx, n, op, carry, xs, ys);
    }
    arithmetic_of::<1024, 3076>(net, idx, n, op, carry, xs, ys)
}
