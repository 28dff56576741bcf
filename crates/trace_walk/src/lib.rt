// The places of a netlist's records, sort by sort, and the nets of its ports in order.
#![tactic(auto)]

ghost use Rattle.std.specs.Prelude.{◌≡◌, ◌+◌, ◌≤◌, ◌<◌, length, get_or, set};
ghost use Rattle.spec_tests.specs.Rules.{◌≡?◌, pick, Fine};
ghost use Rattle.spec_netlist.specs.Accept.{used, accepts};
ghost use Rattle.trace_walk.specs.Places.{Places};

use image_numbers::*;

// Keeps the place of a record that begins with this sort; how many are kept.
fn keep(l: &[u32], sort: u32, place: u32, out: &mut [u32], n: usize) -> usize
    requires { n < length out.old }
    ensures { (result ≡ pick (get_or l.now 0 0 ≡? sort) (n + 1) n) × (out.new ≡ pick (get_or l.now 0 0 ≡? sort) (set out.old n place) out.old) }
{
    if net_words::word_at(l, 0) != sort {
        return n;
    }
    out[n] = place;
    n + 1
}

// The places of all records of a sort, in list order, at the front of a lent table.
pub fn places<'a>(net: &[u32], sort: u32, out: &'a mut [u32]) -> &'a [u32]
    requires { (accepts net.now ≡ Fine) × (used net.now ≤ length out.old) }
    ensures places { Places net.now sort result.now (length result.now) }
    ensures few { length result.now ≤ used net.now }
{
    let list = net_words::word_at(net, LIST_AT);
    let end = net_words::word_at(net, LIST_USED) as usize;
    let mut n: usize = 0;
    let mut p: usize = 0;
    while p < end {
        let l = net_words::stretch(net, list as usize + p, end - p);
        n = keep(l, sort, list + p as u32, out, n);
        p += net_words::record_length(l);
    }
    &out[..n]
}
