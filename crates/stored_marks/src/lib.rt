// Whether a list record fits; marks of the nets that records list as their own, and counts of records.
#![tactic(auto)]

ghost use Rattle.std.specs.Prelude.{◌≡◌, not, List, [], ◌∷◌, ◌++◌, ℕ, ◌+◌, ◌≤◌, ◌<◌, length, drop, get_or};
ghost use Rattle.spec_tests.specs.Rules.{◌<?◌, ◌≡?◌, ◌≢?◌, ◌or◌};
ghost use Rattle.spec_rules.specs.NetlistImage.{memory_port_of};
ghost use Rattle.spec_netlist.specs.Accept.{nets, extent, ports_length, member};
ghost use Rattle.stored_view.specs.Opened.{Opened, Marked, Counted};
ghost use Rattle.stored_marks.specs.Runs.{first_own, second_own};

use image_numbers::*;

// A memory's record with all its ports fits into l.
fn ports_fit(l: &[u32]) -> bool
    requires { length l.now ≤ 65535 }
    ensures { result ≡ not (length l.now <? 6 + ports_length (get_or l.now 5 0) (drop 6 l.now)) }
{
    if l.len() < 6 {
        return false;
    }
    let ports = l[5];
    let mut at: usize = 6;
    for _port in 0..ports {
        at += net_words::port_length(net_words::part(l, at));
        if l.len() < at {
            return false;
        }
    }
    true
}

// The record that l begins with is of a sort that is known, and fits.
pub fn fits(l: &[u32]) -> bool
    requires { length l.now ≤ 65535 }
    ensures { result ≡ not (4 <? get_or l.now 0 0 or length l.now <? extent l.now) }
{
    let sort = net_words::word_at(l, 0);
    if COMPARISON_RECORD < sort {
        return false;
    }
    if sort == MEMORY_RECORD {
        return ports_fit(l);
    }
    !(l.len() < net_words::record_length(l))
}

// The read data of a memory's port, whose words p begins with.
fn port_own(p: &[u32]) -> &[u32]
    ensures { result.now ≡ (memory_port_of p.now).read_data }
{
    net_words::stretch(
        p,
        4 + net_words::word_at(p, 0) as usize,
        net_words::word_at(p, 1) as usize,
    )
}

// The nets that record r lists as its own; of a memory those of its first port.
fn own(r: &[u32]) -> &[u32]
    ensures { result.now ≡ first_own r.now }
{
    let w = net_words::word_at(r, 2) as usize;
    match net_words::word_at(r, 0) {
        PORT_RECORD => net_words::stretch(r, 3, w),
        REGISTER_RECORD => net_words::stretch(r, 3, 1),
        MEMORY_RECORD => port_own(net_words::part(r, 6)),
        ARITHMETIC_RECORD => net_words::stretch(r, 4 + 2 * w, w),
        _ => net_words::stretch(r, 3 + 2 * w, 1),
    }
}

// Those of a memory's second port; none where there is no such port.
fn second_own(r: &[u32]) -> &[u32]
    ensures { result.now ≡ second_own r.now }
{
    if net_words::word_at(r, 0) != MEMORY_RECORD || net_words::word_at(r, 5) != 2 {
        return &[];
    }
    let first = net_words::port_length(net_words::part(r, 6));
    port_own(net_words::part(r, 6 + first))
}

// Marks net x, if it has a mark.
fn mark_one(marks: &mut [u16], x: u32)
    ensures { (y : ℕ) → y < length marks.old → (get_or marks.new y 0 ≢? 0) ≡ (get_or marks.old y 0 ≢? 0 or y ≡? x) }
{
    let at = x as usize;
    if at < marks.len() {
        marks[at] = 1;
    }
}

// Marks these nets.
fn mark(marks: &mut [u16], own: &[u32])
    ensures { (x : ℕ) → x < length marks.old → (get_or marks.new x 0 ≢? 0) ≡ (get_or marks.old x 0 ≢? 0 or member x own.now) }
{
    for x in own {
        mark_one(marks, *x);
    }
}

// Marks the own nets of record r and counts it.
pub fn keep(marks: &mut [u16], counts: &mut [u32; 5], r: &[u32])
    requires { (get_or r.now 0 0 < 5) × ((t : ℕ) → t < 5 → get_or counts.old t 0 < 4294967295) }
    ensures { (ws : List ℕ) (earlier : List (List ℕ)) → nets ws ≤ length marks.old → Marked ws earlier marks.old → Counted earlier counts.old → (Marked ws (earlier ++ (r.now ∷ [])) marks.new) × (Counted (earlier ++ (r.now ∷ [])) counts.new) }
{
    mark(marks, own(r));
    mark(marks, second_own(r));
    let sort = net_words::word_at(r, 0) as usize;
    counts[sort] += 1;
}
