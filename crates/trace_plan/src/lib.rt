// The plan of an accepted netlist: a step for each constant, gate and output node, and one for each cell at the first of its outputs.
#![tactic(auto)]

ghost use Rattle.std.specs.Prelude.{◌≡◌, ◌+◌, ◌≤◌, ◌<◌, length, set};
ghost use Rattle.spec_tests.specs.Rules.{◌≡?◌, ◌or◌, Fine};
ghost use Rattle.spec_rules.specs.NetlistImage.{node_word};
ghost use Rattle.spec_netlist.specs.Accept.{nets, accepts};
ghost use Rattle.trace_cells.specs.Digits.{Nets};
ghost use Rattle.trace_walk.specs.Places.{Listed};
ghost use Rattle.trace_pass.specs.Coded.{words_of};
ghost use Rattle.trace_pass.specs.Plan.{Plan};
ghost use Rattle.trace_pass.specs.Gates.{table_of, Computed};
ghost use Rattle.trace_plan.specs.Building.{Building};
ghost use Rattle.trace_plan.specs.Kinds.{lowered};
ghost use Rattle.trace_plan.specs.Marked.{Marked, marked};
ghost use Rattle.trace_plan.specs.Meeting.{Next, Meeting, Cleared};

use image_numbers::*;
use trace_pass::Step;

// The tables of eight bits, by the node's kind; a constant's is all zeros or all ones.
const TABLES: [u8; 12] = [170, 0, 136, 238, 102, 85, 216, 170, 170, 170, 170, 170];

fn table_of(kind: u32, owner: u32) -> u8
    requires { kind ≤ 11 }
    ensures { (result ≡ table_of kind owner) × (result < 256) }
{
    if kind == CONSTANT {
        if owner == 1 {
            return 255;
        }
        return 0;
    }
    TABLES[kind as usize]
}

// A node whose value is given: an input, a register's or a memory's output.
fn is_source(kind: u32) -> bool
    ensures { result ≡ (kind ≡? 0 or kind ≡? 7 or kind ≡? 9) }
{
    if kind == INPUT {
        return true;
    }
    if kind == REGISTER_OUTPUT {
        return true;
    }
    kind == MEMORY_OUTPUT
}

// An input of net k; k itself where the node has no such input.
fn lower_net(x: u32, k: u32) -> u32
    ensures { result ≡ lowered x k }
{
    if x < k { x } else { k }
}

// Net k, where it has no value yet, has it after step n.
fn mark(k: u32, n: usize, due: &mut [u32])
    requires { (k < length due.old) × (n < 65535) }
    ensures { due.new ≡ marked k n due.old }
{
    if (n as u32) < due[k as usize] {
        due[k as usize] = n as u32 + 1;
    }
}

// The nets of a list.
fn mark_all(outs: &[u32], n: usize, due: &mut [u32])
    requires { (Nets outs.now (length due.old)) × (n < 65535) }
    ensures { Marked outs.now due.old due.new n (length outs.now) }
{
    for k in outs {
        mark(*k, n, due);
    }
}

// The step of a constant, gate or output node; how many steps there are then.
fn plan_gate(net: &[u32], k: u32, n: usize, due: &mut [u32], steps: &mut [Step]) -> usize
    requires { (Meeting net.now (words_of steps.old) due.old n k) × (Computed (node_word net.now k 0)) }
    ensures { Building net.now (words_of steps.new) due.new result (k + 1) }
{
    let table = table_of(
        net_words::node_word(net, k, 0),
        net_words::node_word(net, k, 1),
    );
    let x = lower_net(net_words::node_word(net, k, 3), k);
    let y = lower_net(net_words::node_word(net, k, 4), k);
    let z = lower_net(net_words::node_word(net, k, 5), k);
    steps[n] = Step::Gate {
        target: k,
        table,
        x,
        y,
        z,
    };
    due[k as usize] = n as u32 + 1;
    n + 1
}

// The step of an arithmetic cell at its output k.
fn plan_arithmetic(
    net: &[u32],
    cells: &[u32],
    k: u32,
    n: usize,
    due: &mut [u32],
    steps: &mut [Step],
) -> usize
    requires { (Meeting net.now (words_of steps.old) due.old n k) × (node_word net.now k 0 ≡ 10) × (Listed net.now 3 cells.now) }
    ensures { Building net.now (words_of steps.new) due.new result (k + 1) }
{
    let place = net_words::word_at(cells, net_words::node_word(net, k, 1) as usize);
    let r = net_words::part(net, place as usize);
    let w = net_words::word_at(r, 2) as usize;
    mark_all(net_words::stretch(r, 4 + 2 * w, w), n, due);
    steps[n] = Step::Arithmetic { place };
    n + 1
}

// The step of a comparison at its output k.
fn plan_comparison(
    net: &[u32],
    cells: &[u32],
    k: u32,
    n: usize,
    due: &mut [u32],
    steps: &mut [Step],
) -> usize
    requires { (Meeting net.now (words_of steps.old) due.old n k) × (node_word net.now k 0 ≡ 11) × (Listed net.now 4 cells.now) }
    ensures { Building net.now (words_of steps.new) due.new result (k + 1) }
{
    let place = net_words::word_at(cells, net_words::node_word(net, k, 1) as usize);
    steps[n] = Step::Comparison { target: k, place };
    due[k as usize] = n as u32 + 1;
    n + 1
}

// Net k.
fn plan_net(
    net: &[u32],
    cells: &[u32],
    comparisons: &[u32],
    k: u32,
    n: usize,
    due: &mut [u32],
    steps: &mut [Step],
) -> usize
    requires { (Next net.now (words_of steps.old) due.old n k) × (Listed net.now 3 cells.now) × (Listed net.now 4 comparisons.now) }
    ensures { Building net.now (words_of steps.new) due.new result (k + 1) }
{
    if due[k as usize] <= n as u32 {
        return n;
    }
    let kind = net_words::node_word(net, k, 0);
    if is_source(kind) {
        due[k as usize] = 0;
        return n;
    }
    if kind == ARITHMETIC_OUTPUT {
        return plan_arithmetic(net, cells, k, n, due, steps);
    }
    if kind == COMPARISON_OUTPUT {
        return plan_comparison(net, comparisons, k, n, due, steps);
    }
    plan_gate(net, k, n, due, steps)
}

// The first n nets have no value yet.
fn clear(due: &mut [u32], n: usize)
    requires { n ≤ length due.old }
    ensures { Cleared due.new n }
{
    due[..n].fill(ABSENT);
}

// The plan, at the front of a lent table. cells and comparisons are the places of those records; due is a lent table.
pub fn make_plan<'a>(
    net: &[u32],
    cells: &[u32],
    comparisons: &[u32],
    due: &mut [u32],
    steps: &'a mut [Step],
) -> &'a [Step]
    requires { (accepts net.now ≡ Fine) × (Listed net.now 3 cells.now) × (Listed net.now 4 comparisons.now) × (nets net.now ≤ length due.old) × (nets net.now ≤ length steps.old) }
    ensures { Plan net.now (words_of result.now) (length result.now) }
{
    let count = net_words::word_at(net, NET_COUNT);
    clear(due, count as usize);
    let mut n: usize = 0;
    for k in 0..count {
        n = plan_net(net, cells, comparisons, k, n, due, steps);
    }
    &steps[..n]
}
