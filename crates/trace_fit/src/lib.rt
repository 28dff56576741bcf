// Refusal 12 after 11: a clock or asynchronous reset that is no input net, or too many memory bits.
#![tactic(auto)]

ghost use Rattle.std.specs.Prelude.{◌≡◌, ◌*◌, ◌<◌, length, drop, get_or};
ghost use Rattle.spec_tests.specs.Rules.{any, sum_to, Fine};
ghost use Rattle.spec_rules.specs.NetlistImage.{memory_port_of, memory_of};
ghost use Rattle.spec_netlist.specs.Accept.{accepts};
ghost use Rattle.spec_trace.specs.Opened.{no_input, register_unfit, memory_unfit, unfit};
ghost use Rattle.trace_walk.specs.Places.{Places};
ghost use Rattle.trace_fit.specs.Fit.{bits_at, Small};

use image_numbers::*;

// Net x is no input.
fn no_input(net: &[u32], x: u32) -> bool
    ensures { result ≡ no_input net.now x }
{
    net_words::node_word(net, x, 0) != INPUT
}

// The clock of a register's record, or its asynchronous reset, is no input.
fn register_unfit(net: &[u32], r: &[u32]) -> bool
    ensures { result ≡ register_unfit net.now r.now }
{
    if no_input(net, net_words::word_at(r, 5)) {
        return true;
    }
    let reset = net_words::word_at(r, 9);
    if reset == ABSENT {
        return false;
    }
    if net_words::word_at(r, 11) != 1 {
        return false;
    }
    no_input(net, reset)
}

// One of the registers' records, at these places.
fn registers_unfit(net: &[u32], places: &[u32]) -> bool
    ensures { result ≡ any (λ i. register_unfit net.now (drop (get_or places.now i 0) net.now)) (length places.now) }
{
    places.iter().any(|place| register_unfit(net, net_words::part(net, *place as usize)))
}

// The clock of a memory's port is no input.
fn port_unfit(net: &[u32], p: &[u32]) -> bool
    ensures { result ≡ no_input net.now (memory_port_of p.now).clock }
{
    no_input(net, net_words::word_at(p, net_words::port_length(p) - 2))
}

// The clock of a memory's record, at one port or both.
fn memory_unfit(net: &[u32], r: &[u32]) -> bool
    ensures { result ≡ memory_unfit net.now (memory_of r.now) }
{
    let first = net_words::part(r, 6);
    if port_unfit(net, first) {
        return true;
    }
    if net_words::word_at(r, 5) != 2 {
        return false;
    }
    port_unfit(net, net_words::part(r, 6 + net_words::port_length(first)))
}

// One of the memories' records, at these places.
fn memories_unfit(net: &[u32], places: &[u32]) -> bool
    ensures { result ≡ any (λ i. memory_unfit net.now (memory_of (drop (get_or places.now i 0) net.now))) (length places.now) }
{
    places.iter().any(|place| memory_unfit(net, net_words::part(net, *place as usize)))
}

// The bits of the memories at these places.
pub fn memory_bits(net: &[u32], places: &[u32]) -> u64
    requires { Small net.now places.now (length places.now) }
    ensures { result ≡ sum_to (bits_at net.now places.now) (length places.now) }
{
    let mut sum: u64 = 0;
    for place in places {
        let r = net_words::part(net, *place as usize);
        sum += net_words::word_at(r, 2) as u64 * net_words::word_at(r, 7) as u64;
    }
    sum
}

// The netlist is not one for the trace program. registers, memories: the places of those records.
pub fn is_unfit(net: &[u32], registers: &[u32], memories: &[u32]) -> bool
    requires { (accepts net.now ≡ Fine) × (Places net.now 1 registers.now (length registers.now)) × (Places net.now 2 memories.now (length memories.now)) }
    ensures { result ≡ unfit 65536 net.now }
{
    if registers_unfit(net, registers) {
        return true;
    }
    if memories_unfit(net, memories) {
        return true;
    }
    65536 < memory_bits(net, memories)
}
