// The first wrong word of a memory's record; l is the list words used, from the record's first on.
#![tactic(auto)]

ghost use Rattle.std.specs.Prelude.{◌≡◌, List, ℕ, ◌+◌, ◌≤◌, length, get_or, IsNone, IfSome};
ghost use Rattle.spec_tests.specs.Laws.{from};
ghost use Rattle.spec_tests.specs.Options.{first_of};
ghost use Rattle.spec_rules.specs.NetlistImage.{port_length, record_length};
ghost use Rattle.spec_netlist.specs.Accept.{nets, extent, wrong_memory_port, wrong_memory};
ghost use Rattle.stored_view.specs.Opened.{Opened, Marked};
ghost use Rattle.stored_view.specs.Found.{below};
ghost use Rattle.stored_memories.specs.Ports.{lists_end};

use image_numbers::*;

// The first of a port's four widths that is wrong; where none is, w is small. Data is w bits wide.
fn first_width(p: &[u32], w: u32) -> Option<usize>
    requires { 10 ≤ length p.now }
    ensures { ((ws : List ℕ) (earlier : List (List ℕ)) (m base : ℕ) → result ≡ below 4 (from (wrong_memory_port ws earlier m w base p.now) 4 0)) × (IsNone result → w ≤ 1024) }
{
    if image_fields::is_outside(p[0], 1, 32) {
        return Some(0);
    }
    if image_fields::is_outside(p[1], 1, 1024) {
        return Some(1);
    }
    if p[1] != w {
        return Some(1);
    }
    if image_fields::is_outside(p[2], 1, 32) {
        return Some(2);
    }
    if p[3] != w {
        return Some(3);
    }
    None
}

// A port's read enable, write enable and clock, each with the word beside it; they begin at word e.
fn first_control(net: &[u32], p: &[u32], e: usize) -> Option<usize>
    requires { (Opened net.now) × (e ≡ lists_end p.now) × (e + 6 ≤ length p.now) }
    ensures { (earlier : List (List ℕ)) (m w base : ℕ) → result ≡ below (e + 6) (from (wrong_memory_port net.now earlier m w base p.now) (e + 6) e) }
{
    if let Some(i) = stored_view::first_in_control(net, p, e) {
        return Some(i);
    }
    if let Some(i) = stored_view::first_in_clock(net, p, e + 2) {
        return Some(i);
    }
    stored_view::first_in_clock(net, p, e + 4)
}

// A port of memory m: four widths, four net lists, controls, clock and edge; data is w bits wide, and its read data are the memory's bits
// from base on.
fn first_in_port(net: &[u32], marks: &[u16], p: &[u32], m: u32, w: u32, base: u32) -> Option<usize>
    requires { (Opened net.now) × (nets net.now ≤ length marks.now) × (lists_end p.now + 6 ≤ length p.now) × (length p.now ≤ 65535) × (base ≤ 65535) }
    ensures { ((earlier : List (List ℕ)) → Marked net.now earlier marks.now → result ≡ first_of (wrong_memory_port net.now earlier m w base p.now) (port_length p.now)) × (IsNone result → w ≤ 1024) × IfSome result (λ i. i ≤ 65535) }
{
    if let Some(i) = first_width(p, w) {
        return Some(i);
    }
    let data = 4 + p[0] as usize;
    let write = data + p[1] as usize;
    let end = write + p[2] as usize + p[3] as usize;
    if let Some(i) = stored_view::first_no_net(net, &p[4..data]) {
        return Some(4 + i);
    }
    let own = &p[data..write];
    if let Some(i) = stored_view::first_not_own(net, marks, own, MEMORY_OUTPUT, m, base) {
        return Some(data + i);
    }
    if let Some(i) = stored_view::first_no_net(net, &p[write..end]) {
        return Some(write + i);
    }
    first_control(net, p, end)
}

// A memory's words before its ports: index, depth, style, latency, port count; where none is wrong, it has one port or two.
fn first_field(l: &[u32]) -> Option<usize>
    requires { 6 ≤ length l.now }
    ensures { ((ws : List ℕ) (earlier : List (List ℕ)) → result ≡ below 6 (from (wrong_memory ws earlier l.now) 6 1)) × (IsNone result → (1 ≤ get_or l.now 5 0) × (get_or l.now 5 0 ≤ 2)) }
{
    if 15 < l[1] {
        return Some(1);
    }
    if image_fields::is_outside(l[2], 1, 65536) {
        return Some(2);
    }
    if 2 < l[3] {
        return Some(3);
    }
    if l[4] != 1 {
        return Some(4);
    }
    if image_fields::is_outside(l[5], 1, 2) {
        return Some(5);
    }
    None
}

// A memory: index, depth, style, latency, port count, ports.
pub fn first_in_memory(net: &[u32], marks: &[u16], l: &[u32]) -> Option<usize>
    requires { (Opened net.now) × (nets net.now ≤ length marks.now) × (get_or l.now 0 0 ≡ 2) × (extent l.now ≤ length l.now) × (length l.now ≤ 65535) }
    ensures { (earlier : List (List ℕ)) → Marked net.now earlier marks.now → result ≡ below (record_length l.now) (from (wrong_memory net.now earlier l.now) (record_length l.now) 1) }
{
    if let Some(i) = first_field(l) {
        return Some(i);
    }
    let w = l[7];
    let one = net_words::part(l, 6);
    if let Some(i) = first_in_port(net, marks, one, l[1], w, 0) {
        return Some(6 + i);
    }
    if l[5] == 1 {
        return None;
    }
    let second = 6 + net_words::port_length(one);
    let i = first_in_port(net, marks, net_words::part(l, second), l[1], w, w)?;
    Some(second + i)
}
