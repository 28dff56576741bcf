// Runs of nodes, and the ports that they make.
#![tactic(auto)]

ghost use Rattle.std.specs.Prelude.{◌≡◌, false, ◌∷◌, ◌+◌, ◌-◌, ◌≤◌, length};
ghost use Rattle.spec_model.specs.Words.{source};
ghost use Rattle.spec_model.specs.Builder.{from, add_nodes, add_input_port, add_output_port};
ghost use Rattle.net_view.specs.View.{netlist_of, Built};
ghost use Rattle.net_index.specs.Index.{is_gate};
ghost use Rattle.net_records.specs.Pushes.{Pushes};
ghost use Rattle.net_ports.specs.Runs.{Runs, output_node};

use image_numbers::*;
use net_nodes::Full;
use net_records::ListFull;

// Nodes of a kind and an owner for w bits from bit b on; the answer is the first.
pub fn add_nodes(
    net: &mut [u32],
    n: u32,
    kind: u32,
    owner: u32,
    b: u32,
    w: u32,
) -> Result<u32, Full>
    requires { (Built n net.old) × (is_gate (source kind owner 0) ≡ false) × (b + w ≤ 65535) }
    ensures { Runs (add_nodes (source kind owner) b w (netlist_of n net.old)) n w result net.old net.new }
{
    let first = net[NET_COUNT];
    for i in 0..w {
        net_nodes::add_node(net, n, kind, owner, b + i, ABSENT)?;
    }
    Ok(first)
}

// The numbers from a first one on.
pub fn put_run(out: &mut [u32], first: u32)
    requires { first + length out.old ≤ 131070 }
    ensures { out.new ≡ from first (length out.old) }
{
    for (i, x) in out.iter_mut().enumerate() {
        *x = first + i as u32;
    }
}

// A port's record.
fn put_port(words: &mut [u32], s: u32, first: u32)
    requires { (3 ≤ length words.old) × (length words.old ≤ 1027) × (first + length words.old ≤ 131073) }
    ensures { words.new ≡ 0 ∷ s ∷ (length words.old - 3) ∷ from first (length words.old - 3) }
{
    words[0] = PORT_RECORD;
    words[1] = s;
    words[2] = words.len() as u32 - 3;
    put_run(&mut words[3..], first);
}

fn push_port(net: &mut [u32], n: u32, s: u32, first: u32, w: u32) -> Result<(), ListFull>
    requires { (Built n net.old) × (w ≤ 1024) × (first + w ≤ 131070) }
    ensures { Pushes (0 ∷ s ∷ w ∷ from first w) n result net.old net.new }
{
    let mut words = [0u32; 1027];
    let len = 3 + w as usize;
    put_port(&mut words[..len], s, first);
    net_records::push_record(net, n, &words[..len])
}

// An input port: its nodes and its record. The answer is the first net.
pub fn add_input_port(net: &mut [u32], n: u32, s: u32, w: u32) -> Result<u32, Full>
    requires { (Built n net.old) × (w ≤ 1024) }
    ensures { Runs (add_input_port s w (netlist_of n net.old)) n w result net.old net.new }
{
    let first = add_nodes(net, n, INPUT, s, 0, w)?;
    push_port(net, n, s, first, w)?;
    Ok(first)
}

// Output nodes for the bits whose nets are given.
fn add_outputs(net: &mut [u32], n: u32, s: u32, xs: &[u32]) -> Result<u32, Full>
    requires { (Built n net.old) × (length xs.now ≤ 1024) }
    ensures { Runs (add_nodes (output_node s xs.now) 0 (length xs.now) (netlist_of n net.old)) n (length xs.now) result net.old net.new }
{
    let first = net[NET_COUNT];
    for (i, x) in xs.iter().enumerate() {
        net_nodes::add_node(net, n, OUTPUT, s, i as u32, *x)?;
    }
    Ok(first)
}

// An output port: its nodes and its record. The answer is the first net.
pub fn add_output_port(net: &mut [u32], n: u32, s: u32, xs: &[u32]) -> Result<u32, Full>
    requires { (Built n net.old) × (length xs.now ≤ 1024) }
    ensures { Runs (add_output_port s xs.now (netlist_of n net.old)) n (length xs.now) result net.old net.new }
{
    let first = add_outputs(net, n, s, xs)?;
    push_port(net, n, s, first, xs.len() as u32)?;
    Ok(first)
}
