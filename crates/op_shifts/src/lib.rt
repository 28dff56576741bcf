// Shifts by a word: a stage of muxes for each bit of the amount.
#![tactic(auto)]

ghost use Rattle.std.specs.Prelude.{◌≡◌, ◌+◌, ◌≤◌, ◌<◌, length, get_or};
ghost use Rattle.spec_model.specs.Builder.{both, add_mux};
ghost use Rattle.spec_model.specs.Lowering.{shifted, stages, shift};
ghost use Rattle.net_view.specs.View.{netlist_of};
ghost use Rattle.net_index.specs.Index.{Held};
ghost use Rattle.net_gates.specs.Nots.{PlainNots};
ghost use Rattle.net_fold.specs.Values.{Fills};
ghost use Rattle.op_shifts.specs.Kinds.{shift_of};

use net_nodes::Full;

#[derive(Clone, Copy)]
pub enum ShiftKind {
    Left,
    Right,
    Arithmetic,
}

// Bit i of a word moved down by `distance` places.
fn moved_down(fill: u32, distance: usize, original: &[u32], i: usize) -> u32
    requires { (i < length original.now) × (distance ≤ length original.now) × (length original.now ≤ 1024) }
    ensures { result ≡ get_or original.now (i + distance) fill }
{
    if i + distance < original.len() {
        original[i + distance]
    } else {
        fill
    }
}

// Bit i of a word moved by `distance` places; z is the false constant, an arithmetic shift fills with the top bit.
fn moved_bit(kind: ShiftKind, z: u32, distance: usize, original: &[u32], i: usize) -> u32
    requires { (i < length original.now) × (distance ≤ length original.now) × (length original.now ≤ 1024) }
    ensures { result ≡ get_or (shifted (shift_of kind) z distance original.now) i 0 }
{
    match kind {
        ShiftKind::Left => {
            if i < distance {
                return z;
            }
            original[i - distance]
        }
        ShiftKind::Right => moved_down(z, distance, original, i),
        ShiftKind::Arithmetic => moved_down(original[original.len() - 1], distance, original, i),
    }
}

// The muxes of a stage: where `select` holds, the original word moved by `distance` places.
fn mux_moved(
    net: &mut [u32],
    idx: &mut [u32],
    n: u32,
    kind: ShiftKind,
    z: u32,
    distance: usize,
    select: u32,
    xs: &mut [u32],
    original: &[u32],
) -> Result<(), Full>
    requires { (Held n net.old idx.old) × (length xs.old ≡ length original.now) × (distance ≤ length original.now) × (length original.now ≤ 1024) × (PlainNots (netlist_of n net.old)) }
    ensures { Fills (both (add_mux select) (shifted (shift_of kind) z distance original.now) original.now (netlist_of n net.old)) n result xs.new net.new idx.new }
{
    for i in 0..xs.len() {
        let shifted = moved_bit(kind, z, distance, original, i);
        xs[i] = net_gates::add_mux(net, idx, n, select, shifted, original[i])?;
    }
    Ok(())
}

fn shift_stage(
    net: &mut [u32],
    idx: &mut [u32],
    n: u32,
    kind: ShiftKind,
    z: u32,
    distance: usize,
    select: u32,
    xs: &mut [u32],
) -> Result<(), Full>
    requires { (Held n net.old idx.old) × (distance ≤ length xs.old) × (length xs.old ≤ 1024) × (PlainNots (netlist_of n net.old)) }
    ensures { Fills (both (add_mux select) (shifted (shift_of kind) z distance xs.old) xs.old (netlist_of n net.old)) n result xs.new net.new idx.new }
{
    let mut original = [0u32; 1024];
    let w = xs.len();
    net_nodes::copy(&mut original[..w], xs);
    mux_moved(net, idx, n, kind, z, distance, select, xs, &original[..w])
}

fn shift_stages(
    net: &mut [u32],
    idx: &mut [u32],
    n: u32,
    kind: ShiftKind,
    z: u32,
    xs: &mut [u32],
    amount: &[u32],
) -> Result<(), Full>
    requires { (Held n net.old idx.old) × (0 < length xs.old) × (length xs.old ≤ 1024) × (PlainNots (netlist_of n net.old)) }
    ensures { Fills (stages (shift_of kind) z 0 amount.now xs.old (netlist_of n net.old)) n result xs.new net.new idx.new }
{
    let mut distance: usize = 1;
    for select in amount {
        shift_stage(net, idx, n, kind, z, distance, *select, xs)?;
        distance = (2 * distance).min(xs.len());
    }
    Ok(())
}

pub fn shift(
    net: &mut [u32],
    idx: &mut [u32],
    n: u32,
    kind: ShiftKind,
    xs: &mut [u32],
    amount: &[u32],
) -> Result<(), Full>
    requires { (Held n net.old idx.old) × (0 < length xs.old) × (length xs.old ≤ 1024) × (PlainNots (netlist_of n net.old)) }
    ensures { Fills (shift (shift_of kind) xs.old amount.now (netlist_of n net.old)) n result xs.new net.new idx.new }
{
    let z = net_gates::add_constant(net, idx, n, false)?;
    shift_stages(net, idx, n, kind, z, xs, amount)
}
