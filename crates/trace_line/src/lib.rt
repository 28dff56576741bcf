// One line of a trace on the tables of a run.
#![tactic(auto)]

ghost use Rattle.std.specs.Prelude.{◌≡◌, ◌∷◌, [], ◌++◌, map, ◌+◌, ◌≤◌, ◌<◌, length, get_or, IfErr};
ghost use Rattle.spec_trace.specs.Trace.{digit};
ghost use Rattle.listing_text.specs.Text.{Wrote};
ghost use Rattle.trace_step.specs.Words.{on, spread};
ghost use Rattle.trace_line.specs.Step.{char};
ghost use Rattle.trace_line.specs.Bundles.{Stands, Goes, Takes, SameTables, clash_in};

use trace_pass::Step;

// An accepted netlist, and what is made of it once: its plan, the nets of its ports, the places of its registers' and its memories' records.
#[derive(Clone, Copy)]
pub struct Tables<'a> {
    pub net: &'a [u32],
    pub steps: &'a [Step],
    pub inputs: &'a [u32],
    pub outputs: &'a [u32],
    pub registers: &'a [u32],
    pub memories: &'a [u32],
}

// The tables of a run: the values of all nets, room for those before a step, and the memories' bits, a word each.
#[derive(Drop)]
pub struct State<'a> {
    pub values: &'a mut [u32],
    pub before: &'a mut [u32],
    pub memory: &'a mut [u32],
}

// A write clash in a step: the lowest memory that has one.
#[derive(Clone, Copy)]
pub struct Clash {
    pub memory: u32,
}

// Character i of a line as a bit: 1 for '1'.
fn char_at(line: &[u8], i: usize) -> u32
    ensures { result ≡ char (get_or line.now i 0) }
{
    if i < line.len() {
        return trace_step::bit_of(line[i] == b'1');
    }
    0
}

// The characters of a line into the input nets.
fn load_line(inputs: &[u32], line: &[u8], values: &mut [u32])
    ensures { values.new ≡ spread char values.old inputs.now line.now }
{
    for (i, net) in inputs.iter().enumerate() {
        trace_step::put(values, *net, char_at(line, i));
    }
}

// The bits of nets as characters, and a line end; the next place.
pub fn print_nets(nets: &[u32], values: &[u32], out: &mut [u8], at: usize) -> usize
    requires { at ≤ length out.old }
    ensures { Wrote out.old at (map (λ n. digit (on values.now n)) nets.now ++ (10 ∷ [])) out.new result }
{
    let mut to = at;
    for net in nets {
        to = listing_text::put_byte(out, to, digit_of(trace_step::is_on(values, *net)));
    }
    listing_text::put_byte(out, to, b'\n')
}

fn digit_of(b: bool) -> u8
    ensures { result ≡ digit b }
{
    if b { b'1' } else { b'0' }
}

// The first line: settings, no step.
fn begin(tables: &Tables, state: &mut State, line: &[u8])
    requires { Stands tables.now 0 state.old }
    ensures same { SameTables state.old state.new }
    ensures goes { Goes tables.now 0 line.now state.old state.new }
{
    load_line(tables.inputs, line, state.values);
    trace_pass::run(tables.net, tables.steps, state.values);
}

// Line k, a step; where a memory has a write clash, no more is done.
fn advance(tables: &Tables, state: &mut State, k: u32, line: &[u8]) -> Result<(), Clash>
    requires { (Stands tables.now k state.old) × (0 < k) }
    ensures same { SameTables state.old state.new }
    ensures takes { Takes tables.now k line.now state.old (clash_in result) state.new }
    ensures memory { IfErr result (λ c. c.memory < 16) }
{
    let values = &mut *state.values;
    let old = &mut *state.before;
    let memory = &mut *state.memory;
    old.copy_from_slice(values);
    load_line(tables.inputs, line, values);
    if let Some(memory) = trace_clash::lowest_clash(tables.net, tables.memories, old, values) {
        return Err(Clash { memory });
    }
    trace_step::load_registers(tables.net, tables.registers, old, values);
    trace_memory::read_memories(tables.net, tables.memories, memory, old, values);
    trace_memory::write_memories(tables.net, tables.memories, memory, old, values);
    trace_pass::run(tables.net, tables.steps, values);
    Ok(())
}

// Line k: the settings at the start, or a step.
pub fn take_line(tables: &Tables, state: &mut State, k: u32, line: &[u8]) -> Result<(), Clash>
    requires { Stands tables.now k state.old }
    ensures same { SameTables state.old state.new }
    ensures takes { Takes tables.now k line.now state.old (clash_in result) state.new }
    ensures memory { IfErr result (λ c. c.memory < 16) }
{
    if k == 0 {
        begin(tables, state, line);
        return Ok(());
    }
    advance(tables, state, k, line)
}
