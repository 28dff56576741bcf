// Total readers of a netlist's words: past the end a word reads as 0.
#![tactic(auto)]

ghost use Rattle.std.specs.Prelude.{◌≡◌, ◌≤◌, get_or};
ghost use Rattle.spec_rules.specs.NetlistImage as image;
ghost use Rattle.net_words.specs.Lengths.{second_length, memory_length};

pub use image_fields::{part, stretch};
use image_numbers::*;

// Word i, 0 past the end.
pub fn word_at(net: &[u32], i: usize) -> u32
    ensures { result ≡ get_or net.now i 0 }
{
    if i < net.len() { net[i] } else { 0 }
}

// Word f of node n.
pub fn node_word(net: &[u32], n: u32, f: u32) -> u32
    ensures { result ≡ image.node_word net.now n f }
{
    word_at(
        net,
        word_at(net, NODES_AT) as usize + NODE_LENGTH * (n as usize) + (f as usize),
    )
}

// The words of a memory's port that a list begins with.
pub fn port_length(p: &[u32]) -> usize
    ensures { (result ≡ image.port_length p.now) × (result ≤ 17179869194) }
{
    let lists = word_at(p, 0) as usize
        + word_at(p, 1) as usize
        + word_at(p, 2) as usize
        + word_at(p, 3) as usize;
    4 + lists + 6
}

// The words of a memory's second port, where it has one; p begins with its first.
fn second_length(l: &[u32], p: &[u32]) -> usize
    ensures { (result ≡ second_length l.now p.now) × (result ≤ 17179869194) }
{
    if word_at(l, 5) == 2 {
        port_length(part(p, port_length(p)))
    } else {
        0
    }
}

// The words of a memory's record that a list begins with.
fn memory_length(l: &[u32]) -> usize
    ensures { (result ≡ memory_length l.now) × (result ≤ 34359738394) }
{
    let p = part(l, 6);
    6 + port_length(p) + second_length(l, p)
}

// The words of the record that a list begins with. A record's kind is a number: its first word in the netlist image.
pub fn record_length(l: &[u32]) -> usize
    ensures { result ≡ image.record_length l.now }
{
    let w = word_at(l, 2) as usize;
    match word_at(l, 0) {
        PORT_RECORD => 3 + w,
        REGISTER_RECORD => 13,
        MEMORY_RECORD => memory_length(l),
        ARITHMETIC_RECORD => 4 + 3 * w,
        COMPARISON_RECORD => 4 + 2 * w,
        _ => l.len(),
    }
}
