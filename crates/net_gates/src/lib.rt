// Constants and gates, folded as struo-ir folds them.
#![tactic(auto)]

ghost use Rattle.std.specs.Prelude.{◌≡◌, ℕ, ◌<◌, min, max};
ghost use Rattle.spec_model.specs.Words.{absent, gate};
ghost use Rattle.spec_model.specs.Builder.{node_for_net, is_constant, add_cached, add_constant, add_not, add_and, add_or, add_xor, add_mux};
ghost use Rattle.net_view.specs.View.{NodesWithin, netlist_of};
ghost use Rattle.net_index.specs.Index.{Held};
ghost use Rattle.net_nodes.specs.Gives.{Gives};
ghost use Rattle.net_gates.specs.Pairs.{and_or};
ghost use Rattle.net_gates.specs.Nots.{PlainNots};
ghost use Rattle.net_gates.specs.Turns.{mux_node};

use image_numbers::*;
use net_gate_index::add_cached;
use net_nodes::{Full, constant_value};

// Whether net k is the constant v.
pub fn is_constant(net: &[u32], k: u32, v: bool) -> bool
    requires { NodesWithin net.now }
    ensures { (n : ℕ) → is_constant v (netlist_of n net.now) k ≡ result }
{
    constant_value(net, k) == Some(v)
}

pub fn add_constant(net: &mut [u32], idx: &mut [u32], n: u32, v: bool) -> Result<u32, Full>
    requires { Held n net.old idx.old }
    ensures { Gives (add_constant v (netlist_of n net.old)) n result net.new idx.new }
{
    add_cached(net, idx, n, CONSTANT, v as u32, ABSENT, ABSENT, ABSENT)
}

pub fn add_not(net: &mut [u32], idx: &mut [u32], n: u32, a: u32) -> Result<u32, Full>
    requires { Held n net.old idx.old }
    ensures { Gives (add_not a (netlist_of n net.old)) n result net.new idx.new }
{
    if let Some(v) = constant_value(net, a) {
        return add_constant(net, idx, n, !v);
    }
    if net_nodes::kind_of(net, a) == NOT {
        return Ok(net_nodes::input_of(net, a));
    }
    add_cached(net, idx, n, NOT, ABSENT, a, ABSENT, ABSENT)
}

// A gate whose pair of inputs is ordered.
fn add_pair(
    net: &mut [u32],
    idx: &mut [u32],
    n: u32,
    kind: u32,
    lhs: u32,
    rhs: u32,
) -> Result<u32, Full>
    requires { (Held n net.old idx.old) × (0 < kind) × (kind < 7) }
    ensures { Gives (add_cached (gate kind (min lhs rhs) (max lhs rhs) absent) (netlist_of n net.old)) n result net.new idx.new }
{
    add_cached(
        net,
        idx,
        n,
        kind,
        ABSENT,
        lhs.min(rhs),
        lhs.max(rhs),
        ABSENT,
    )
}

// And and Or: the constant v decides the gate.
fn and_or(
    net: &mut [u32],
    idx: &mut [u32],
    n: u32,
    kind: u32,
    v: bool,
    lhs: u32,
    rhs: u32,
) -> Result<u32, Full>
    requires { (Held n net.old idx.old) × (0 < kind) × (kind < 7) }
    ensures { Gives (and_or kind v lhs rhs (netlist_of n net.old)) n result net.new idx.new }
{
    if lhs == rhs {
        return Ok(lhs);
    }
    if is_constant(net, lhs, v) {
        return add_constant(net, idx, n, v);
    }
    if is_constant(net, rhs, v) {
        return add_constant(net, idx, n, v);
    }
    if is_constant(net, lhs, !v) {
        return Ok(rhs);
    }
    if is_constant(net, rhs, !v) {
        return Ok(lhs);
    }
    add_pair(net, idx, n, kind, lhs, rhs)
}

pub fn add_and(net: &mut [u32], idx: &mut [u32], n: u32, lhs: u32, rhs: u32) -> Result<u32, Full>
    requires { Held n net.old idx.old }
    ensures { Gives (add_and lhs rhs (netlist_of n net.old)) n result net.new idx.new }
{
    and_or(net, idx, n, AND, false, lhs, rhs)
}

pub fn add_or(net: &mut [u32], idx: &mut [u32], n: u32, lhs: u32, rhs: u32) -> Result<u32, Full>
    requires { Held n net.old idx.old }
    ensures { Gives (add_or lhs rhs (netlist_of n net.old)) n result net.new idx.new }
{
    and_or(net, idx, n, OR, true, lhs, rhs)
}

pub fn add_xor(net: &mut [u32], idx: &mut [u32], n: u32, lhs: u32, rhs: u32) -> Result<u32, Full>
    requires { Held n net.old idx.old }
    ensures { Gives (add_xor lhs rhs (netlist_of n net.old)) n result net.new idx.new }
{
    if lhs == rhs {
        return add_constant(net, idx, n, false);
    }
    if is_constant(net, lhs, false) {
        return Ok(rhs);
    }
    if is_constant(net, rhs, false) {
        return Ok(lhs);
    }
    if is_constant(net, lhs, true) {
        return add_not(net, idx, n, rhs);
    }
    if is_constant(net, rhs, true) {
        return add_not(net, idx, n, lhs);
    }
    add_pair(net, idx, n, XOR, lhs, rhs)
}

// A mux's condition and its two sides.
#[derive(Clone, Copy)]
struct Mux {
    condition: u32,
    then_net: u32,
    else_net: u32,
}

// One turn: the input of m's condition as the condition, the sides exchanged.
fn exchanged(net: &[u32], m: Mux) -> Mux
    requires { NodesWithin net.now }
    ensures { ((n : ℕ) → result.condition ≡ (node_for_net (netlist_of n net.now) m.condition).in0) × (result.then_net ≡ m.else_net) × (result.else_net ≡ m.then_net) }
{
    Mux {
        condition: net_nodes::input_of(net, m.condition),
        then_net: m.else_net,
        else_net: m.then_net,
    }
}

// The same mux on a condition that is no Not. No Not has a Not as its input, so there is one turn at most.
fn plain_mux(net: &[u32], condition: u32, then_net: u32, else_net: u32) -> Mux
    requires { (NodesWithin net.now) × ((n : ℕ) → PlainNots (netlist_of n net.now)) }
    ensures { (n : ℕ) → gate 6 result.condition result.then_net result.else_net ≡ mux_node (netlist_of n net.now) condition then_net else_net }
{
    let mut m = Mux {
        condition,
        then_net,
        else_net,
    };
    while net_nodes::kind_of(net, m.condition) == NOT {
        m = exchanged(net, m);
    }
    m
}

pub fn add_mux(
    net: &mut [u32],
    idx: &mut [u32],
    n: u32,
    condition: u32,
    then_net: u32,
    else_net: u32,
) -> Result<u32, Full>
    requires { (Held n net.old idx.old) × (PlainNots (netlist_of n net.old)) }
    ensures { Gives (add_mux condition then_net else_net (netlist_of n net.old)) n result net.new idx.new }
{
    if then_net == else_net {
        return Ok(then_net);
    }
    if let Some(v) = constant_value(net, condition) {
        return Ok(if v { then_net } else { else_net });
    }
    let m = plain_mux(net, condition, then_net, else_net);
    add_cached(
        net,
        idx,
        n,
        MUX,
        ABSENT,
        m.condition,
        m.then_net,
        m.else_net,
    )
}
