// The first wrong word of a port's, a register bit's and a cell's record; l is the list words used, from the record's first on.
#![tactic(auto)]

ghost use Rattle.std.specs.Prelude.{◌≡◌, List, ℕ, ◌+◌, ◌*◌, ◌≤◌, ◌<◌, length, get_or, IfSome};
ghost use Rattle.spec_tests.specs.Laws.{from};
ghost use Rattle.spec_tests.specs.Options.{first_of};
ghost use Rattle.spec_netlist.specs.Accept.{nets, wrong_port, wrong_register, wrong_arithmetic, wrong_comparison, count_of};
ghost use Rattle.stored_view.specs.Opened.{Opened, Marked};
ghost use Rattle.stored_view.specs.Found.{below};
ghost use Rattle.stored_records.specs.Above.{above_all, above_carry};
ghost use Rattle.stored_records.specs.Words.{wrong_in};

use image_numbers::*;

// A port: signal, width, nets of one kind, input or output.
pub fn first_in_port(net: &[u32], marks: &[u16], l: &[u32]) -> Option<usize>
    requires { (Opened net.now) × (nets net.now ≤ length marks.now) × (3 + get_or l.now 2 0 ≤ length l.now) × (length l.now ≤ 65535) }
    ensures { (earlier : List (List ℕ)) → Marked net.now earlier marks.now → let n = 3 + get_or l.now 2 0 in result ≡ below n (from (wrong_port net.now earlier l.now) n 1) }
{
    if 511 < l[1] {
        return Some(1);
    }
    if image_fields::is_outside(l[2], 1, 1024) {
        return Some(2);
    }
    let kind = net_words::node_word(net, l[3], 0);
    if kind != INPUT && kind != OUTPUT {
        return Some(3);
    }
    let own = &l[3..3 + l[2] as usize];
    let i = stored_view::first_not_own(net, marks, own, kind, l[1], 0)?;
    Some(3 + i)
}

// A register's reset, its level, mode and value: the words from 9 on.
fn first_reset(net: &[u32], l: &[u32]) -> Option<usize>
    requires { (Opened net.now) × (13 ≤ length l.now) }
    ensures { (earlier : List (List ℕ)) → result ≡ below 13 (from (wrong_register net.now earlier l.now) 13 9) }
{
    if let Some(i) = stored_view::first_in_control(net, l, 9) {
        return Some(i);
    }
    if stored_view::wrong_level(l[9], l[11]) {
        return Some(11);
    }
    if stored_view::wrong_level(l[9], l[12]) {
        return Some(12);
    }
    None
}

// A register's data, clock and edge, enable and its level, and what follows: the words from 4 on.
fn first_control(net: &[u32], l: &[u32]) -> Option<usize>
    requires { (Opened net.now) × (13 ≤ length l.now) }
    ensures { (earlier : List (List ℕ)) → result ≡ below 13 (from (wrong_register net.now earlier l.now) 13 4) }
{
    if stored_view::no_net(net, l[4]) {
        return Some(4);
    }
    if let Some(i) = stored_view::first_in_clock(net, l, 5) {
        return Some(i);
    }
    if let Some(i) = stored_view::first_in_control(net, l, 7) {
        return Some(i);
    }
    first_reset(net, l)
}

// A register bit: index, bit, output, data, clock, edge, enable, level, reset, level, asynchronous, value.
pub fn first_in_register(net: &[u32], marks: &[u16], l: &[u32]) -> Option<usize>
    requires { (Opened net.now) × (nets net.now ≤ length marks.now) × (13 ≤ length l.now) }
    ensures { (earlier : List (List ℕ)) → Marked net.now earlier marks.now → result ≡ below 13 (from (wrong_register net.now earlier l.now) 13 1) }
{
    if 255 < l[1] {
        return Some(1);
    }
    if 1023 < l[2] {
        return Some(2);
    }
    if stored_view::not_own(net, marks, l[3], REGISTER_OUTPUT, l[1], l[2]) {
        return Some(3);
    }
    first_control(net, l)
}

// The least net above m and above all of these nets.
fn above(nets: &[u32], m: usize) -> usize
    requires { m ≤ 4294967296 }
    ensures { result ≡ above_all m nets.now }
{
    nets.iter().fold(m, |m, x| m.max(*x as usize + 1))
}

// The first of these words that is not the cell's output of this number and bit, or is below the least net that its inputs allow.
fn first_wrong_output(
    net: &[u32],
    marks: &[u16],
    outputs: &[u32],
    number: u32,
    least: usize,
) -> Option<usize>
    requires { (Opened net.now) × (nets net.now ≤ length marks.now) × (length outputs.now ≤ 65535) }
    ensures { ((earlier : List (List ℕ)) → Marked net.now earlier marks.now → result ≡ first_of (wrong_in net.now earlier outputs.now number least) (length outputs.now)) × IfSome result (λ i. i < length outputs.now) }
{
    for (i, x) in outputs.iter().enumerate() {
        if stored_view::not_own(net, marks, *x, ARITHMETIC_OUTPUT, number, i as u32) {
            return Some(i);
        }
        if (*x as usize) < least {
            return Some(i);
        }
    }
    None
}

// The least net that a carry allows: above it, if there is one.
fn above_carry(c: u32) -> usize
    ensures { (result ≡ above_carry c) × (result ≤ 4294967296) }
{
    if c == ABSENT {
        return 0;
    }
    c as usize + 1
}

// An arithmetic cell: operation, width, carry or absent, lhs, rhs, outputs; number is that of the cell.
pub fn first_in_arithmetic(net: &[u32], marks: &[u16], l: &[u32], number: u32) -> Option<usize>
    requires { (Opened net.now) × (nets net.now ≤ length marks.now) × (4 + 3 * get_or l.now 2 0 ≤ length l.now) × (length l.now ≤ 65535) }
    ensures { (earlier : List (List ℕ)) → Marked net.now earlier marks.now → number ≡ count_of 3 earlier → let n = 4 + 3 * get_or l.now 2 0 in result ≡ below n (from (wrong_arithmetic net.now earlier l.now) n 1) }
{
    if 2 < l[1] {
        return Some(1);
    }
    if image_fields::is_outside(l[2], 1, 1024) {
        return Some(2);
    }
    if stored_view::no_optional(net, l[3]) {
        return Some(3);
    }
    let w = l[2] as usize;
    let outputs = 4 + 2 * w;
    let inputs = &l[4..outputs];
    if let Some(i) = stored_view::first_no_net(net, inputs) {
        return Some(4 + i);
    }
    let least = above(inputs, above_carry(l[3]));
    let i = first_wrong_output(net, marks, &l[outputs..outputs + w], number, least)?;
    Some(outputs + i)
}

// A comparison: operation, width, lhs, rhs, output; number is that of the cell.
pub fn first_in_comparison(net: &[u32], marks: &[u16], l: &[u32], number: u32) -> Option<usize>
    requires { (Opened net.now) × (nets net.now ≤ length marks.now) × (4 + 2 * get_or l.now 2 0 ≤ length l.now) × (length l.now ≤ 65535) }
    ensures { (earlier : List (List ℕ)) → Marked net.now earlier marks.now → number ≡ count_of 4 earlier → let n = 4 + 2 * get_or l.now 2 0 in result ≡ below n (from (wrong_comparison net.now earlier l.now) n 1) }
{
    if 3 < l[1] {
        return Some(1);
    }
    if image_fields::is_outside(l[2], 1, 1024) {
        return Some(2);
    }
    let output = 3 + 2 * (l[2] as usize);
    let inputs = &l[3..output];
    if let Some(i) = stored_view::first_no_net(net, inputs) {
        return Some(3 + i);
    }
    let x = l[output];
    if stored_view::not_own(net, marks, x, COMPARISON_OUTPUT, number, 0) {
        return Some(output);
    }
    if (x as usize) < above(inputs, 0) {
        return Some(output);
    }
    None
}
