// Tests on a netlist's words that its records share: whether a word names a net, a control and its level, a record's own net; a lent table
// cleared.
#![tactic(auto)]

ghost use Rattle.std.specs.Prelude.{◌≡◌, List, ℕ, ◌≤◌, ◌<◌, length, get_or, ◌+◌, position, Bool, IfSome};
ghost use Rattle.spec_tests.specs.Rules.{◌<?◌};
ghost use Rattle.spec_tests.specs.Laws.{from};
ghost use Rattle.spec_tests.specs.Options.{first_of};
ghost use Rattle.spec_netlist.specs.Accept.{nets, no_net, no_optional, wrong_level, not_own_of};
ghost use Rattle.stored_view.specs.Opened.{Opened, Marked};
ghost use Rattle.stored_view.specs.Found.{below};

use image_numbers::*;

// The word names no net.
pub fn no_net(net: &[u32], x: u32) -> bool
    requires { Opened net.now }
    ensures { result ≡ no_net net.now x }
{
    !(x < net[NET_COUNT])
}

// The word names no net and is not absent.
pub fn no_optional(net: &[u32], x: u32) -> bool
    requires { Opened net.now }
    ensures { result ≡ no_optional net.now x }
{
    if x == ABSENT {
        return false;
    }
    no_net(net, x)
}

// A level, mode or value v beside the control's net x: 0 or 1, and 0 where there is no control.
pub fn wrong_level(x: u32, v: u32) -> bool
    ensures { result ≡ wrong_level x v }
{
    if x == ABSENT {
        return v != 0;
    }
    1 < v
}

// Net x is not a node of kind k with this owner and bit, or a record so far lists it.
pub fn not_own(net: &[u32], marks: &[u16], x: u32, k: u32, owner: u32, bit: u32) -> bool
    requires { (Opened net.now) × (nets net.now ≤ length marks.now) }
    ensures { (earlier : List (List ℕ)) → Marked net.now earlier marks.now → result ≡ not_own_of net.now earlier x k owner bit }
{
    if net[NET_COUNT] <= x {
        return true;
    }
    let at = HEADER_LENGTH + NODE_LENGTH * (x as usize);
    if net[at] != k {
        return true;
    }
    if net[at + OWNER] != owner {
        return true;
    }
    if net[at + BIT] != bit {
        return true;
    }
    marks[x as usize] != 0
}

// The first of these words that names no net.
pub fn first_no_net(net: &[u32], words: &[u32]) -> Option<usize>
    requires { Opened net.now }
    ensures { result ≡ position (no_net net.now) words.now }
{
    words.iter().position(|x| no_net(net, *x))
}

// The first of these words that is not a net of this kind and owner with the bits from base on, or that a record so far lists.
pub fn first_not_own(
    net: &[u32],
    marks: &[u16],
    own: &[u32],
    kind: u32,
    owner: u32,
    base: u32,
) -> Option<usize>
    requires { (Opened net.now) × (nets net.now ≤ length marks.now) × (base ≤ 65535) × (length own.now ≤ 65535) }
    ensures { ((earlier : List (List ℕ)) → Marked net.now earlier marks.now → result ≡ first_of (λ j. not_own_of net.now earlier (get_or own.now j 0) kind owner (base + j)) (length own.now)) × IfSome result (λ i. i < length own.now) }
{
    for (i, x) in own.iter().enumerate() {
        if not_own(net, marks, *x, kind, owner, base + i as u32) {
            return Some(i);
        }
    }
    None
}

// The first wrong word of a control: its net, or absent, at word `at` of l, and its level beside it.
pub fn first_in_control(net: &[u32], l: &[u32], at: usize) -> Option<usize>
    requires { (Opened net.now) × (at + 2 ≤ length l.now) }
    ensures { (wrong : ℕ → Bool) → wrong at ≡ no_optional net.now (get_or l.now at 0) → wrong (at + 1) ≡ wrong_level (get_or l.now at 0) (get_or l.now (at + 1) 0) → result ≡ below (at + 2) (from wrong (at + 2) at) }
{
    if no_optional(net, l[at]) {
        return Some(at);
    }
    if wrong_level(l[at], l[at + 1]) {
        return Some(at + 1);
    }
    None
}

// The first wrong word of a net at word `at` of l and the word beside it, an edge or a level, which is 0 or 1.
pub fn first_in_clock(net: &[u32], l: &[u32], at: usize) -> Option<usize>
    requires { (Opened net.now) × (at + 2 ≤ length l.now) }
    ensures { (wrong : ℕ → Bool) → wrong at ≡ no_net net.now (get_or l.now at 0) → wrong (at + 1) ≡ (1 <? get_or l.now (at + 1) 0) → result ≡ below (at + 2) (from wrong (at + 2) at) }
{
    if no_net(net, l[at]) {
        return Some(at);
    }
    if 1 < l[at + 1] {
        return Some(at + 1);
    }
    None
}
