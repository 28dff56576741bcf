// The nodes' words. A node with an earlier one's kind, owner and bit is found in a tree in a lent table, in at most 48 steps.
#![tactic(auto)]

ghost use Rattle.std.specs.Prelude.{◌≡◌, ◌==◌, false, not, ◌+◌, ◌*◌, ◌-◌, ◌%◌, ◌≤◌, ◌<◌, length, position, IsNone};
ghost use Rattle.spec_tests.specs.Rules.{any};
ghost use Rattle.spec_tests.specs.Laws.{from};
ghost use Rattle.spec_tests.specs.Options.{first_of};
ghost use Rattle.spec_rules.specs.NetlistImage.{node_word};
ghost use Rattle.spec_netlist.specs.Accept.{nets, limit, belongs, wrong_owner, wrong_bit, wrong_input, same_node, wrong_node_word};
ghost use Rattle.stored_view.specs.Opened.{Opened};
ghost use Rattle.stored_view.specs.Found.{below};
ghost use Rattle.stored_nodes.specs.Tree.{key_of, key_at, root_of, slots, Fits, Tree, Ends};
ghost use Rattle.stored_nodes.specs.Words.{wrong_node};

use image_numbers::*;

// By kind of node: the most that its owner (a constant's value) can be, the most that its bit can be, its inputs.
const MOST_OWNER: [u32; 12] = [511, 1, 0, 0, 0, 0, 0, 255, 511, 15, ABSENT, ABSENT];

const MOST_BIT: [u32; 12] = [1023, 0, 0, 0, 0, 0, 0, 1023, 1023, 2047, 1023, 0];

const INPUT_COUNT: [u32; 12] = [0, 0, 2, 2, 2, 1, 3, 0, 1, 0, 0, 0];

// A node of kind k belongs to a record.
pub fn is_owned(k: u32) -> bool
    ensures { result ≡ belongs k }
{
    if k == INPUT {
        return true;
    }
    MUX < k
}

fn wrong_owner(k: u32, owner: u32) -> bool
    requires { k < 12 }
    ensures { result ≡ wrong_owner k owner }
{
    if is_owned(k) {
        return MOST_OWNER[k as usize] < owner;
    }
    if k == CONSTANT {
        return MOST_OWNER[k as usize] < owner;
    }
    owner != ABSENT
}

// Input i of net n, the word x, is wrong.
fn wrong_input(n: u32, k: u32, i: u32, x: u32) -> bool
    requires { k < 12 }
    ensures { result ≡ wrong_input n k i x }
{
    if i < INPUT_COUNT[k as usize] {
        return !(x < n);
    }
    x != ABSENT
}

// The first wrong input of node n, as a word of the node.
fn first_input(net: &[u32], n: u32) -> Option<usize>
    requires { (Opened net.now) × (n < nets net.now) × (node_word net.now n 0 < 12) }
    ensures { result ≡ below 6 (from (wrong_node_word net.now n) 6 3) }
{
    let at = HEADER_LENGTH + NODE_LENGTH * (n as usize);
    let k = net[at];
    if wrong_input(n, k, 0, net[at + INPUT_0]) {
        return Some(3);
    }
    if wrong_input(n, k, 1, net[at + INPUT_1]) {
        return Some(4);
    }
    if wrong_input(n, k, 2, net[at + INPUT_2]) {
        return Some(5);
    }
    None
}

// Kind, owner and bit as one number.
fn key_of(kind: u32, owner: u32, bit: u32) -> u64
    requires { (kind < 16) × (bit < 2048) }
    ensures { result ≡ key_of kind owner bit }
{
    ((kind as u64) * 4294967296 + owner as u64) * 2048 + bit as u64
}

// That of node n.
fn key(net: &[u32], n: u32) -> u64
    requires { (Opened net.now) × (n < nets net.now) × (Fits net.now n) }
    ensures { result ≡ key_at net.now n }
{
    let at = HEADER_LENGTH + NODE_LENGTH * (n as usize);
    key_of(net[at], net[at + OWNER], net[at + BIT])
}

// The root of a key: a hash, below m.
fn root(key: u64, m: u32) -> u32
    requires { 0 < m }
    ensures { result ≡ root_of m key }
{
    let a = net_gate_index::mix(0, (key / 4294967296) as u32);
    let b = net_gate_index::mix(a, (key % 4294967296) as u32);
    net_gate_index::bucket(m, net_gate_index::mix(b, 0))
}

// Nodes j and n have one kind, owner and bit.
fn is_same(net: &[u32], j: u32, n: u32) -> bool
    requires { (Opened net.now) × (j < nets net.now) × (n < nets net.now) }
    ensures { result ≡ same_node net.now j n }
{
    let a = HEADER_LENGTH + NODE_LENGTH * (j as usize);
    let b = HEADER_LENGTH + NODE_LENGTH * (n as usize);
    // Word by word: == of slices is a call of its own, here at each step of a search.
    if net[a] != net[b] {
        return false;
    }
    if net[a + OWNER] != net[b + OWNER] {
        return false;
    }
    net[a + BIT] == net[b + BIT]
}

// Of the two slots of a node, whose number and 1 is c, the one for a key with this rest.
fn under(count: u32, c: u16, rest: u64) -> usize
    requires { 0 < c }
    ensures { result ≡ count + 2 * (c - 1) + rest % 2 }
{
    count as usize + 2 * (c as usize - 1) + (rest % 2) as usize
}

// The slot at which a search for node n ends: it is free, or holds a node with its kind, owner and bit. A key has 47 digits, so the 48th
// node on its way would be the same.
fn find(net: &[u32], n: u32, table: &[u16]) -> usize
    requires { (Opened net.now) × (n < nets net.now) × (Fits net.now n) × (3 * nets net.now ≤ length table.now) × (Tree net.now n (slots net.now table.now)) }
    ensures { (Ends net.now (slots net.now table.now) n result) × (result < 3 * nets net.now) }
{
    let count = net[NET_COUNT];
    let mut rest = key(net, n);
    let mut at = root(rest, count) as usize;
    for _depth in 0..48u32 {
        let c = table[at];
        if c == 0 {
            return at;
        }
        if is_same(net, (c - 1) as u32, n) {
            return at;
        }
        at = under(count, c, rest);
        rest = rest / 2;
    }
    at
}

// A node below n has node n's kind, owner and bit; where none has, node n is now in the tree.
fn is_again(net: &[u32], n: u32, table: &mut [u16]) -> bool
    requires { (Opened net.now) × (n < nets net.now) × (Fits net.now n) × (3 * nets net.now ≤ length table.old) × (Tree net.now n (slots net.now table.old)) }
    ensures { (result ≡ any (λ j. same_node net.now j n) n) × (result ≡ false → Tree net.now (n + 1) (slots net.now table.new)) }
{
    let at = find(net, n, table);
    if table[at] != 0 {
        return true;
    }
    table[at] = (n + 1) as u16;
    false
}

// The bit b of node n, of kind k, is wrong; where it is not, node n is now in the tree, if it belongs to a record.
fn wrong_bit(net: &[u32], n: u32, k: u32, b: u32, table: &mut [u16]) -> bool
    requires { (Opened net.now) × (n < nets net.now) × (k ≡ node_word net.now n 0) × (b ≡ node_word net.now n 2) × (k < 12) × (3 * nets net.now ≤ length table.old) × (Tree net.now n (slots net.now table.old)) }
    ensures { (result ≡ wrong_bit net.now n k b) × (result ≡ false → Tree net.now (n + 1) (slots net.now table.new)) }
{
    if is_owned(k) {
        if MOST_BIT[k as usize] < b {
            return true;
        }
        return is_again(net, n, table);
    }
    b != ABSENT
}

// The first wrong word of node n; where there is none, it is now in the tree, if it belongs to a record.
fn first_in_node(net: &[u32], n: u32, table: &mut [u16]) -> Option<usize>
    requires { (Opened net.now) × (n < nets net.now) × (3 * nets net.now ≤ length table.old) × (Tree net.now n (slots net.now table.old)) }
    ensures { (result ≡ first_of (wrong_node_word net.now n) 6) × (IsNone result → Tree net.now (n + 1) (slots net.now table.new)) }
{
    let at = HEADER_LENGTH + NODE_LENGTH * (n as usize);
    let k = net[at];
    if COMPARISON_OUTPUT < k {
        return Some(0);
    }
    if wrong_owner(k, net[at + OWNER]) {
        return Some(1);
    }
    if wrong_bit(net, n, k, net[at + BIT], table) {
        return Some(2);
    }
    first_input(net, n)
}

// The first of these words that is not 0.
fn first_not_zero(words: &[u32]) -> Option<usize>
    ensures { result ≡ position (λ x. not (x == 0)) words.now }
{
    words.iter().position(|x| *x != 0)
}

// The first wrong word of the nodes, counted from the nodes' start. The lent table is for the tree: a root for each net, then two slots
// for each.
pub fn first_word(net: &[u32], table: &mut [u16]) -> Option<usize>
    requires { (Opened net.now) × (3 * nets net.now ≤ length table.old) }
    ensures { result ≡ first_of (wrong_node net.now) (6 * limit net.now) }
{
    let count = net[NET_COUNT];
    table[..3 * count as usize].fill(0);
    for n in 0..count {
        if let Some(f) = first_in_node(net, n, table) {
            return Some(NODE_LENGTH * (n as usize) + f);
        }
    }
    let used = NODE_LENGTH * (count as usize);
    let i = first_not_zero(&net[HEADER_LENGTH + used..net[LIST_AT] as usize])?;
    Some(used + i)
}
