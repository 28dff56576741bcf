// The nets of a netlist's input ports or of its output ports, ports in list order, bit 0 first.
#![tactic(auto)]

ghost use Rattle.std.specs.Prelude.{◌≡◌, ◌≤◌, length, take};
ghost use Rattle.listing_text.specs.Text.{Wrote};
ghost use Rattle.trace_ports.specs.Ports.{port_nets, joined};

// A list at a place, cut where it has no room; the next place.
fn put_all(out: &mut [u32], at: usize, list: &[u32]) -> usize
    requires { at ≤ length out.old }
    ensures { Wrote out.old at list.now out.new result }
{
    let n = list.len().min(out.len() - at);
    out[at..at + n].copy_from_slice(&list[..n]);
    at + n
}

// The nets of the port whose record begins at a place, if its nodes are of this kind.
fn put_port(net: &[u32], place: u32, kind: u32, out: &mut [u32], at: usize) -> usize
    requires { at ≤ length out.old }
    ensures { Wrote out.old at (port_nets net.now kind place) out.new result }
{
    let l = net_words::part(net, place as usize);
    if net_words::node_word(net, net_words::word_at(l, 3), 0) != kind {
        return at;
    }
    put_all(
        out,
        at,
        net_words::stretch(l, 3, net_words::word_at(l, 2) as usize),
    )
}

// The nets of all ports whose nodes are of this kind, at the front of a lent table. ports: the places of the ports' records.
pub fn port_nets<'a>(net: &[u32], ports: &[u32], kind: u32, out: &'a mut [u32]) -> &'a [u32]
    ensures { result.now ≡ take (length out.old) (joined net.now kind ports.now (length ports.now)) }
{
    let mut at: usize = 0;
    for port in ports {
        at = put_port(net, *port, kind, out, at);
    }
    &out[..at]
}
