// The lowering of a module image into a netlist image, in lent words: the checks, the start of the walk, its phases, and the clearing.
// Follows `lower` of struo-synth.
#![tactic(auto)]

ghost use Rattle.std.specs.Prelude.{◌≡◌, false};
ghost use Rattle.spec_rules.specs.Image.{decode};
ghost use Rattle.spec_rules.specs.Checks as rule;
ghost use Rattle.spec_model.specs.Lowering as model;
ghost use Rattle.spec_call.specs.Call as call;
ghost use Rattle.check_image.specs.Accepted.{Accepted};
ghost use Rattle.net_view.specs.View.{room};
ghost use Rattle.scratch_view.specs.View.{limit_of};
ghost use Rattle.walk_view.specs.View.{Phase};
ghost use Rattle.lower_outcome.specs.Answer.{answer_of};
ghost use Rattle.lower.specs.Lower.{kept_of, Lent, Begun, Prepared, Ended};

use lower_outcome::Refusal;

// The start: the scratch laid out, the widths of narrowed adders, an empty netlist.
fn prepare(image: &[u8], n: u32, net: &mut [u32], scr: &mut [u32])
    requires { Lent image.now n net.old scr.old }
    ensures { Prepared image.now n (room n net.old) net.new scr.new }
{
    scratch_layout::lay(image, n, false, scr);
    let at = scr[scratch_view::ROWS] as usize;
    expr_ranges::adder_widths(image, &mut scr[at..]);
    net_nodes::start(net, n);
}

// The phases in their order, up to the first that refuses.
fn phases(image: &[u8], net: &mut [u32], scr: &mut [u32]) -> Result<(), walk_view::Refusal>
    requires { Begun image.now net.old scr.old }
    ensures { Phase (model.lower_state false (decode image.now) (limit_of scr.old) (room (limit_of scr.old) net.old)) image.now net.old scr.old result net.new scr.new }
{
    phase_sources::reserve_sources(image, net, scr)?;
    phase_memories::connect_memories(image, net, scr)?;
    phase_registers::connect_registers(image, net, scr)?;
    phase_outputs::connect_outputs(image, net, scr)
}

// After a refusal the netlist words are 0.
fn clear_refused(r: Result<(), walk_view::Refusal>, net: &mut [u32])
    ensures { net.new ≡ kept_of r net.old }
{
    if r.is_err() {
        net_nodes::clear(net);
    }
}

// The walk over an accepted image, from its start to the clearing.
fn lower_accepted(
    image: &[u8],
    n: u32,
    net: &mut [u32],
    scr: &mut [u32],
) -> Result<(), walk_view::Refusal>
    requires { Lent image.now n net.old scr.old }
    ensures { Ended image.now n (room n net.old) result net.new scr.new }
{
    prepare(image, n, net, scr);
    let r = phases(image, net, scr);
    clear_refused(r, net);
    net_nodes::clear(scr);
    r
}

// The words of the scratch that an accepted image needs.
fn scratch_need(image: &[u8], n: u32) -> usize
    requires { Accepted image.now }
    ensures { result ≡ rule.scratch_need image.now n }
{
    let bits = 4 * check_header::signal_bits(image) + check_header::expr_bits(image);
    let need = bits
        + 8 * (image_fields::count(image, image_fields::EXPRESSIONS) as u64)
        + 4 * (n as u64)
        + 64;
    need as usize
}

// Lowers a module image for net limit n and list limit p. The required words of the two buffers are lent to the walk; a refusal by the
// checks touches none.
pub fn lower(
    image: &[u8],
    n: u32,
    p: u32,
    netlist: &mut [u32],
    scratch: &mut [u32],
) -> Result<(), Refusal>
    ensures { call.Lowered image.now n p netlist.old scratch.old (answer_of result) netlist.new scratch.new }
{
    check_image::check(image, n, p, netlist.len(), scratch.len())?;
    let words = 16 + 6 * (n as usize) + (p as usize);
    let need = scratch_need(image, n);
    let r = lower_accepted(image, n, &mut netlist[..words], &mut scratch[..need]);
    lower_outcome::of_walk(r)
}
