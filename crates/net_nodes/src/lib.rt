// Nodes of a netlist image in lent words: 16 header words, then six words a node.
#![tactic(auto)]

ghost use Rattle.std.specs.Prelude.{◌≡◌, false, ℕ, ◌+◌, ◌*◌, ◌≤◌, ◌<◌, length, get_or, replicate};
ghost use Rattle.spec_model.specs.Words.{absent, node};
ghost use Rattle.spec_model.specs.Builder.{node_for_net, constant_value, add_node};
ghost use Rattle.net_view.specs.View.{NodesWithin, room, netlist_of, Built};
ghost use Rattle.net_view.specs.Laws.{with_node, empty, Holds};
ghost use Rattle.net_index.specs.Index.{is_gate};
ghost use Rattle.net_nodes.specs.Gives.{node_words, Adds};
ghost use Rattle.spec_tests.specs.Options.{option_of};

use image_numbers::*;

// Why the netlist has no room for what is to be added: refusals 9 and 10.
#[derive(Clone, Copy)]
pub enum Full {
    Nets,
    List,
}

// All words 0.
pub fn clear(words: &mut [u32])
    ensures { words.new ≡ replicate (length words.old) 0 }
{
    words.fill(0);
}

// The words of a slice of the same length. Word by word: the slice's own copy calls memmove, which the library for C doesn't need elsewhere.
pub fn copy(to: &mut [u32], from: &[u32])
    requires { length to.old ≡ length from.now }
    ensures { to.new ≡ from.now }
{
    for i in 0..from.len() {
        to[i] = from[i];
    }
}

// The image of an empty netlist for n nets; the words behind the nodes are the list's.
pub fn start(net: &mut [u32], n: u32)
    requires { (0 < n) × (n ≤ 65535) × (16 + 6 * n ≤ length net.old) × (room n net.old ≤ 65535) }
    ensures { Holds n (empty n (room n net.old)) net.new }
{
    clear(net);
    net[EDITION] = 1;
    net[NODES_AT] = NODES_START;
    net[LIST_AT] = 16 + 6 * n;
}

// Word f of node k; past the end none.
fn node_word(net: &[u32], k: u32, f: usize) -> u32
    requires { (NodesWithin net.now) × (f < 6) }
    ensures { (n : ℕ) → result ≡ get_or (node_words (node_for_net (netlist_of n net.now) k)) f 0 }
{
    if k < net[NET_COUNT] {
        let p = HEADER_LENGTH + NODE_LENGTH * (k as usize);
        return net[p + f];
    }
    ABSENT
}

// The kind of net k, a word of the netlist image; past the end none.
pub fn kind_of(net: &[u32], k: u32) -> u32
    requires { NodesWithin net.now }
    ensures { (n : ℕ) → result ≡ (node_for_net (netlist_of n net.now) k).kind }
{
    node_word(net, k, 0)
}

// The first input of net k.
pub fn input_of(net: &[u32], k: u32) -> u32
    requires { NodesWithin net.now }
    ensures { (n : ℕ) → result ≡ (node_for_net (netlist_of n net.now) k).in0 }
{
    node_word(net, k, INPUT_0)
}

// The value of net k, if it is a constant.
pub fn constant_value(net: &[u32], k: u32) -> Option<bool>
    requires { NodesWithin net.now }
    ensures { (n : ℕ) → constant_value (netlist_of n net.now) k ≡ option_of result }
{
    if node_word(net, k, 0) == CONSTANT {
        return Some(node_word(net, k, OWNER) == 1);
    }
    None
}

// One node more.
pub fn push_node(net: &mut [u32], kind: u32, owner: u32, bit: u32, a: u32, b: u32, c: u32)
    requires { (22 + 6 * get_or net.old 1 0 ≤ length net.old) × (get_or net.old 1 0 < 65535) }
    ensures { (n : ℕ) → Built n net.old → get_or net.old 1 0 < n → Holds n (with_node (node kind owner bit a b c) (netlist_of n net.old)) net.new }
{
    let count = net[NET_COUNT];
    let p = HEADER_LENGTH + NODE_LENGTH * (count as usize);
    net[p] = kind;
    net[p + OWNER] = owner;
    net[p + BIT] = bit;
    net[p + INPUT_0] = a;
    net[p + INPUT_1] = b;
    net[p + INPUT_2] = c;
    net[NET_COUNT] = count + 1;
}

// A node that is neither a constant nor a gate.
pub fn add_node(
    net: &mut [u32],
    n: u32,
    kind: u32,
    owner: u32,
    bit: u32,
    a: u32,
) -> Result<u32, Full>
    requires { (Built n net.old) × (is_gate (node kind owner bit a absent absent) ≡ false) }
    ensures { Adds (add_node (node kind owner bit a absent absent) (netlist_of n net.old)) n result net.old net.new }
{
    let count = net[NET_COUNT];
    if count < n {
        push_node(net, kind, owner, bit, a, ABSENT, ABSENT);
        return Ok(count);
    }
    Err(Full::Nets)
}
