// What the reader of a netlist image gives: its nodes and records, one by one.
#![tactic(auto)]

ghost use Rattle.std.specs.Prelude.{◌≡◌};
ghost use Rattle.spec_tests.specs.Rules.{pick};
ghost use Rattle.spec_netlist.specs.Given.{list_from, is_node, node_given, is_record, record_given};

use image_numbers::*;

// There is a node n.
pub fn is_node(net: &[u32], n: u32) -> bool
    ensures { result ≡ is_node net.now n }
{
    n < net_words::word_at(net, NET_COUNT)
}

// Its six words, if there is one: kind, owner or constant value, bit, three inputs.
pub fn node(net: &[u32], n: u32) -> Option<[u32; 6]>
    ensures { result ≡ pick (is_node net.now n) (Some (node_given net.now n)) None }
{
    if !is_node(net, n) {
        return None;
    }
    Some([
        net_words::node_word(net, n, 0),
        net_words::node_word(net, n, 1),
        net_words::node_word(net, n, 2),
        net_words::node_word(net, n, 3),
        net_words::node_word(net, n, 4),
        net_words::node_word(net, n, 5),
    ])
}

// The list words used from list word p on.
fn list_from(net: &[u32], p: u32) -> &[u32]
    ensures { result.now ≡ list_from net.now p }
{
    let used = net_words::word_at(net, LIST_USED);
    if used <= p {
        return &[];
    }
    net_words::stretch(
        net,
        net_words::word_at(net, LIST_AT) as usize + p as usize,
        (used - p) as usize,
    )
}

// The list words used from list word p on can be read as a record that fits.
pub fn is_record(net: &[u32], p: u32) -> bool
    ensures { result ≡ is_record net.now p }
{
    if net_words::word_at(net, LIST_USED) <= p {
        return false;
    }
    let l = list_from(net, p);
    if COMPARISON_RECORD < net_words::word_at(l, 0) {
        return false;
    }
    !(l.len() < net_words::record_length(l))
}

// Its sort, its length and the list word after it, where they can.
pub fn record(net: &[u32], p: u32) -> Option<[u32; 3]>
    ensures { result ≡ pick (is_record net.now p) (Some (record_given net.now p)) None }
{
    if !is_record(net, p) {
        return None;
    }
    let l = list_from(net, p);
    let length = net_words::record_length(l) as u32;
    Some([net_words::word_at(l, 0), length, p + length])
}

// 1 where something is given, 0 where it is not.
pub fn flag(given: bool) -> u32
    ensures { result ≡ pick given 1 0 }
{
    u32::from(given)
}
