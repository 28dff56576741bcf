// The values of a netlist's nets, one word a net, by a plan of steps made once for the netlist.
#![tactic(auto)]

ghost use Rattle.std.specs.Prelude.{◌≡◌, ◌≤◌, ◌<◌, [], ◌∷◌, length, get_or, set, drop};
ghost use Rattle.spec_rules.specs.Step.{Setting, Contents};
ghost use Rattle.trace_cells.specs.Digits.{Bits};
ghost use Rattle.trace_cells.specs.Cells.{Compares, lesser_of, greater_of, answer_of};
ghost use Rattle.trace_pass.specs.Coded.{words_of};
ghost use Rattle.trace_pass.specs.Plan.{chosen, Ready, Done, Plan, size, Loaded, Valued};

// A step of a plan: a gate gives a net the bit of a table that three nets choose; an arithmetic cell and a comparison are told by the
// place of the record in the image, and a comparison by its net.
#[derive(Clone, Copy)]
pub enum Step {
    Gate {
        target: u32,
        table: u8,
        x: u32,
        y: u32,
        z: u32,
    },
    Arithmetic {
        place: u32,
    },
    Comparison {
        target: u32,
        place: u32,
    },
}

// The bit of a table that three bits choose.
pub fn choose(table: u32, a: u32, b: u32, c: u32) -> u32
    requires { (a < 2) × ((b < 2) × (c < 2)) }
    ensures { (result ≡ chosen table a b c) × (result < 2) }
{
    (table >> (a + 2 * b + 4 * c)) % 2
}

// A gate: gives net k the bit of a table that three nets choose.
fn gate(k: u32, table: u32, x: u32, y: u32, z: u32, values: &mut [u32])
    requires { Bits values.old × (((k < length values.old) × (x < length values.old)) × ((y < length values.old) × (z < length values.old))) }
    ensures { (values.new ≡ set values.old k (chosen table (get_or values.old x 0) (get_or values.old y 0) (get_or values.old z 0))) × Bits values.new }
{
    let b = choose(
        table,
        values[x as usize],
        values[y as usize],
        values[z as usize],
    );
    values[k as usize] = b;
}

// A comparison: gives net k its answer.
fn compared(k: u32, r: &[u32], values: &mut [u32])
    requires { (k < length values.old) × (Compares (lesser_of r.now) (greater_of r.now) values.old × Bits values.old) }
    ensures { (values.new ≡ set values.old k (answer_of r.now values.old)) × Bits values.new }
{
    let b = trace_cells::comparison_cell(r, values);
    values[k as usize] = b;
}

// The words of a record, from its place on.
fn record_at(net: &[u32], at: u32) -> &[u32]
    ensures { result.now ≡ drop at net.now }
{
    net_words::part(net, at as usize)
}

// Takes a step.
fn take(net: &[u32], step: Step, values: &mut [u32])
    requires { Ready net.now (words_of (step ∷ [])) 0 values.old }
    ensures { Done net.now (words_of (step ∷ [])) 0 values.old values.new × Bits values.new }
{
    match step {
        Step::Gate {
            target,
            table,
            x,
            y,
            z,
        } => gate(target, table as u32, x, y, z, values),
        Step::Arithmetic { place } => {
            trace_cells::arithmetic_cell(record_at(net, place), values)
        }
        Step::Comparison { target, place } => compared(target, record_at(net, place), values),
    }
}

// All steps of a plan: with the sources' values in the table, every net's value is there at the end.
pub fn run(net: &[u32], steps: &[Step], values: &mut [u32])
    requires { Plan net.now (words_of steps.now) (length steps.now) × ((size net.now ≤ length values.old) × Bits values.old) }
    ensures { ((s : Setting) (c : Contents) → Loaded net.now s c values.old → Valued net.now s c values.new) × Bits values.new }
{
    for step in steps {
        take(net, *step, values);
    }
}
