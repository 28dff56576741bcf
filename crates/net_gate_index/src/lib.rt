// Equal constants and gates are made a single time: a hash index in lent words, with chains.
#![tactic(auto)]

ghost use Rattle.std.specs.Prelude.{◌≡◌, ◌+◌, ◌*◌, ◌≤◌, ◌<◌, length, get_or};
ghost use Rattle.spec_model.specs.Words.{absent, node};
ghost use Rattle.spec_model.specs.Builder.{same, find, add_cached};
ghost use Rattle.net_view.specs.View.{node_at_of, nodes_of, netlist_of};
ghost use Rattle.net_index.specs.Index.{mixed, bucket_of, hash_node, Held};
ghost use Rattle.net_index.specs.Laws.{linked};
ghost use Rattle.net_nodes.specs.Gives.{Gives};
ghost use Rattle.spec_tests.specs.Options.{option_of};

use image_numbers::*;
use net_nodes::Full;

// A hash with one word more.
pub fn mix(h: u32, x: u32) -> u32
    ensures { result ≡ mixed h x }
{
    (((h as u64) * 2654435761 + (x as u64)) % 4294967296) as u32
}

// The bucket of a hash, of n.
pub fn bucket(n: u32, h: u32) -> u32
    requires { 0 < n }
    ensures { (result ≡ bucket_of n h) × (result < n) }
{
    (((h as u64) * (n as u64)) / 4294967296) as u32
}

fn hash(n: u32, kind: u32, owner: u32, a: u32, b: u32, c: u32) -> u32
    requires { 0 < n }
    ensures { (result ≡ hash_node n (node kind owner absent a b c)) × (result < n) }
{
    let h = mix(mix(mix(mix(mix(0, kind), a), b), c), owner);
    bucket(n, h)
}

// Whether node k is the given one.
fn is_node(net: &[u32], k: u32, kind: u32, owner: u32, a: u32, b: u32, c: u32) -> bool
    requires { 22 + 6 * k ≤ length net.now }
    ensures { result ≡ same (node kind owner absent a b c) (node_at_of net.now k) }
{
    let p = HEADER_LENGTH + NODE_LENGTH * (k as usize);
    kind == net[p]
        && a == net[p + INPUT_0]
        && b == net[p + INPUT_1]
        && c == net[p + INPUT_2]
        && owner == net[p + OWNER]
}

// The newest node equal to the given one, whose hash is h. The index stands in lent words, by net numbers: there is no heap.
fn find_gate(
    net: &[u32],
    idx: &[u32],
    n: u32,
    h: u32,
    kind: u32,
    owner: u32,
    a: u32,
    b: u32,
    c: u32,
) -> Option<u32>
    requires { (Held n net.now idx.now) × (h ≡ hash_node n (node kind owner absent a b c)) × (h < n) × (0 < kind) × (kind < 7) }
    ensures { find (node kind owner absent a b c) (nodes_of net.now (get_or net.now 1 0)) ≡ option_of result }
{
    let mut p = idx[h as usize];
    while 0 < p {
        let k = p - 1;
        if is_node(net, k, kind, owner, a, b, c) {
            return Some(k);
        }
        p = idx[n as usize + k as usize];
    }
    None
}

// Node k becomes the newest of bucket h.
fn link(idx: &mut [u32], n: u32, k: u32, h: u32)
    requires { (n + k < length idx.old) × (h < n) × (k < 65535) }
    ensures { idx.new ≡ linked n k h idx.old }
{
    idx[n as usize + k as usize] = idx[h as usize];
    idx[h as usize] = k + 1;
}

// An equal node shared, else one node more.
pub fn add_cached(
    net: &mut [u32],
    idx: &mut [u32],
    n: u32,
    kind: u32,
    owner: u32,
    a: u32,
    b: u32,
    c: u32,
) -> Result<u32, Full>
    requires { (Held n net.old idx.old) × (0 < kind) × (kind < 7) }
    ensures { Gives (add_cached (node kind owner absent a b c) (netlist_of n net.old)) n result net.new idx.new }
{
    let h = hash(n, kind, owner, a, b, c);
    match find_gate(net, idx, n, h, kind, owner, a, b, c) {
        Some(k) => Ok(k),
        None => {
            let count = net[NET_COUNT];
            if count < n {
                link(idx, n, count, h);
                net_nodes::push_node(net, kind, owner, ABSENT, a, b, c);
                Ok(count)
            } else {
                Err(Full::Nets)
            }
        }
    }
}
