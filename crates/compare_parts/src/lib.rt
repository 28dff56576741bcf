// Parts of the port exported for comparison by running only; nothing rests on them. The contracts say that each call is safe and ends, not what it answers.
#![tactic(auto)]

ghost use Rattle.std.specs.Prelude.{◌≡◌, ◌+◌, ◌*◌, ◌≤◌, ◌<◌, length, get_or};
ghost use Rattle.expr_fusion.specs.Fusion.{Inside};
ghost use Rattle.net_view.specs.View.{netlist_of};
ghost use Rattle.net_index.specs.Index.{Held};
ghost use Rattle.net_gates.specs.Nots.{PlainNots};
ghost use Rattle.compare_parts.specs.Steps.{Steps};

use image_numbers::ABSENT;
use net_cells::ComparisonOp;
use net_fold::ArithmeticOp;
use net_nodes::Full;

// ---- expressions of an image that passes the checks, under limits and buffers that refuse none ----

// Ranges and narrowed adders, eight words for each expression; false if the image is refused or the table short.
pub fn compare_adder_widths(image: &[u8], table: &mut [u32]) -> bool {
    if check_image::check(image, 1, 0, 22, 98372).is_err() {
        return false;
    }
    let count = image_fields::count(image, image_fields::EXPRESSIONS) as usize;
    if count * 8 <= table.len() {
        expr_ranges::adder_widths(image, table);
        return true;
    }
    false
}

// Whether a is zero, its carry, the fusion test of a and b, what an Add of them lowers.
fn fusion_row(image: &[u8], a: u32, b: u32) -> [u32; 8]
    requires { Inside image.now a b }
{
    let zero = expr_fusion::is_zero_expression(image, a);
    let carry = expr_fusion::carry_lsb(image, a).unwrap_or(ABSENT);
    let t = match expr_fusion::fusion_test(image, a, b) {
        Some(fused) => [fused.lhs, fused.rhs, fused.carry],
        None => [ABSENT; 3],
    };
    let s = expr_fusion::add_with_carry(image, a, b);
    let last = s.carry.unwrap_or(ABSENT);
    [u32::from(zero), carry, t[0], t[1], t[2], s.lhs, s.rhs, last]
}

// Fusion answers for a pair of expressions; false if the image is refused or has no such expressions.
pub fn compare_fusion(image: &[u8], a: u32, b: u32, row: &mut [u32; 8]) -> bool {
    if check_image::check(image, 1, 0, 22, 98372).is_err() {
        return false;
    }
    let count = image_fields::count(image, image_fields::EXPRESSIONS);
    if a < count && b < count {
        *row = fusion_row(image, a, b);
        return true;
    }
    false
}

// ---- the netlist builder ----

// A net of those made so far.
fn some_net(net: &[u32], x: u32) -> u32
    requires { (16 ≤ length net.now) × (0 < get_or net.now 1 0) }
    ensures { result < get_or net.now 1 0 }
{
    x % net[1]
}

// A word of the pool, from its start again after its end.
fn pool_word(pool: &[u32], k: usize) -> u32 {
    if pool.is_empty() {
        return 0;
    }
    pool[k % pool.len()]
}

// Nets for w bits, as the words of a pool from a place on name them.
fn some_nets(net: &[u32], pool: &[u32], start: u32, w: usize) -> [u32; 1024]
    requires { (16 ≤ length net.now) × (0 < get_or net.now 1 0) × (w ≤ 1024) }
    ensures { length result ≡ 1024 }
{
    let mut nets = [0; 1024];
    for (i, bit) in nets[..w].iter_mut().enumerate() {
        *bit = some_net(net, pool_word(pool, start as usize + i));
    }
    nets
}

// One word for several nets.
fn digest(nets: &[u32]) -> u32 {
    nets.iter().fold(0, |h, x| net_gate_index::mix(h, *x))
}

// Operations 0 to 5: constants and gates; a constant where there is no net to take.
fn gate_step(
    net: &mut [u32],
    idx: &mut [u32],
    n: u32,
    op: u32,
    a: u32,
    b: u32,
    c: u32,
) -> Result<u32, Full>
    requires { (Held n net.old idx.old) × (PlainNots (netlist_of n net.old)) }
    ensures { Steps n result net.new idx.new }
{
    if net[1] == 0 {
        return net_gates::add_constant(net, idx, n, a % 2 == 1);
    }
    let x = some_net(net, a);
    let y = some_net(net, b);
    match op {
        0 => net_gates::add_constant(net, idx, n, a % 2 == 1),
        1 => net_gates::add_not(net, idx, n, x),
        2 => net_gates::add_and(net, idx, n, x, y),
        3 => net_gates::add_or(net, idx, n, x, y),
        4 => net_gates::add_xor(net, idx, n, x, y),
        _ => net_gates::add_mux(net, idx, n, x, y, some_net(net, c)),
    }
}

fn arithmetic_op(op: u32) -> ArithmeticOp {
    match op {
        7 => ArithmeticOp::Subtract,
        8 => ArithmeticOp::Multiply,
        _ => ArithmeticOp::Add,
    }
}

// A carry for operation 9 only.
fn carry_net(net: &[u32], op: u32, c: u32) -> Option<u32>
    requires { (16 ≤ length net.now) × (0 < get_or net.now 1 0) }
{
    if op == 9 {
        return Some(some_net(net, c));
    }
    None
}

fn comparison_op(op: u32) -> ComparisonOp {
    match op {
        10 => ComparisonOp::LessThanUnsigned,
        11 => ComparisonOp::LessOrEqualUnsigned,
        12 => ComparisonOp::LessThanSigned,
        _ => ComparisonOp::LessOrEqualSigned,
    }
}

// Operations 6 to 13 and 15: word arithmetic, whose answer is a digest of the outputs, comparisons, an output port.
fn nets_step(
    net: &mut [u32],
    idx: &mut [u32],
    n: u32,
    op: u32,
    c: u32,
    xs: &mut [u32],
    ys: &[u32],
) -> Result<u32, Full>
    requires { (Held n net.old idx.old) × (PlainNots (netlist_of n net.old)) × (0 < get_or net.old 1 0) × (0 < length xs.old) × (length xs.old ≡ length ys.now) × (length xs.old ≤ 1024) }
    ensures { Steps n result net.new idx.new }
{
    if 14 < op {
        let signal = net[5];
        return net_ports::add_output_port(net, n, signal, xs);
    }
    if 9 < op {
        return net_cells::comparison(net, idx, n, comparison_op(op), xs, ys);
    }
    let carry = carry_net(net, op, c);
    net_cells::arithmetic(net, idx, n, arithmetic_op(op), carry, xs, ys)?;
    Ok(digest(xs))
}

// The same on words of width w, of nets that a pool names.
fn word_step(
    net: &mut [u32],
    idx: &mut [u32],
    n: u32,
    op: u32,
    w: usize,
    a: u32,
    b: u32,
    c: u32,
    pool: &[u32],
) -> Result<u32, Full>
    requires { (Held n net.old idx.old) × (PlainNots (netlist_of n net.old)) × (0 < get_or net.old 1 0) × (0 < w) × (w ≤ 1024) }
    ensures { Steps n result net.new idx.new }
{
    let mut lhs = some_nets(net, pool, a, w);
    let rhs = some_nets(net, pool, b, w);
    nets_step(net, idx, n, op, c, &mut lhs[..w], &rhs[..w])
}

// Operation 14: an input port. Ports count the signals.
fn input_step(net: &mut [u32], idx: &[u32], n: u32, w: u32) -> Result<u32, Full>
    requires { (Held n net.old idx.now) × (PlainNots (netlist_of n net.old)) × (w ≤ 1024) }
    ensures { Steps n result net.new idx.now }
{
    let signal = net[5];
    net_ports::add_input_port(net, n, signal, w)
}

// The operation whose five words stand at a place.
fn step(
    net: &mut [u32],
    idx: &mut [u32],
    n: u32,
    ops: &[u32],
    at: usize,
    pool: &[u32],
) -> Result<u32, Full>
    requires { (Held n net.old idx.old) × (PlainNots (netlist_of n net.old)) × (at + 5 ≤ length ops.now) }
    ensures { Steps n result net.new idx.new }
{
    let op = ops[at];
    let a = ops[at + 1];
    let b = ops[at + 2];
    let c = ops[at + 3];
    if op == 14 {
        return input_step(net, idx, n, 1 + a % 1024);
    }
    if net[1] == 0 {
        return gate_step(net, idx, n, 0, a, b, c);
    }
    if op < 6 {
        return gate_step(net, idx, n, op, a, b, c);
    }
    let w = 1 + (a % 1024) as usize;
    word_step(net, idx, n, op, w, b, c, ops[at + 4], pool)
}

// The refusal's number.
fn refusal(full: Full) -> u64 {
    match full {
        Full::Nets => 9,
        Full::List => 10,
    }
}

// The first so many operations. Each answer stands in the results; the end is the refusal and its operation.
fn run(
    net: &mut [u32],
    idx: &mut [u32],
    n: u32,
    ops: &[u32],
    turns: usize,
    pool: &[u32],
    results: &mut [u32],
) -> [u64; 2]
    requires { (Held n net.old idx.old) × (PlainNots (netlist_of n net.old)) × (5 * turns ≤ length ops.now) × (turns ≤ length results.old) }
{
    for at in 0..turns {
        match step(net, idx, n, ops, 5 * at, pool) {
            Ok(k) => results[at] = k,
            Err(full) => return [refusal(full), at as u64],
        }
    }
    [0, 0]
}

// From an empty netlist. 1 if the words lent are not those of n nets, some list words and the index.
fn build(
    n: u32,
    ops: &[u32],
    turns: usize,
    pool: &[u32],
    net: &mut [u32],
    idx: &mut [u32],
    results: &mut [u32],
) -> [u64; 2]
    requires { (0 < n) × (n ≤ 65535) × (5 * turns ≤ length ops.now) × (turns ≤ length results.old) }
{
    let least = 16 + 6 * n as usize;
    if least <= net.len() && net.len() <= least + 65535 && idx.len() == 4 * n as usize {
        net_nodes::clear(idx);
        net_nodes::start(net, n);
        return run(net, idx, n, ops, turns, pool, results);
    }
    [1, 0]
}

// An empty netlist of n nets, then the first so many operations, of five words each. The answer: 0, 9 or 10, and where; 1 if what is lent does not fit.
pub fn compare_build(
    n: u32,
    ops: &[u32],
    turns: usize,
    pool: &[u32],
    net: &mut [u32],
    idx: &mut [u32],
    results: &mut [u32],
    answer: &mut [u64; 2],
) {
    *answer = [1, 0];
    if turns <= ops.len() / 5 && turns <= results.len() && 0 < n && n <= 65535 {
        *answer = build(n, ops, turns, pool, net, idx, results);
    }
}
