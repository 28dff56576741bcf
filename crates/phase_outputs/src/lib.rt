// `connect_outputs` of struo-synth: for each output signal its bits are resolved, then its port is made of their nets.
#![tactic(auto)]

ghost use Rattle.std.specs.Prelude.{◌≡◌, false, ◌≤◌, ◌<◌};
ghost use Rattle.spec_rtl.specs.Rtl as R;
ghost use Rattle.spec_rules.specs.Image.{count_at_of, signal_width, decode};
ghost use Rattle.spec_model.specs.Lowering as model;
ghost use Rattle.law_walk.specs.Reads.{AllAfter};
ghost use Rattle.walk_view.specs.View.{walk_state, Ready, Sure, Phase};
ghost use Rattle.phase_parts.specs.Ran.{Ran};
ghost use Rattle.phase_outputs.specs.Outputs.{output_turn, port_turn};

use image_records::Direction;
use walk_view::Refusal;

// The port of signal p, whose n bits have nets.
fn add_port(image: &[u8], net: &mut [u32], scr: &[u32], p: u32, n: u32) -> Result<(), Refusal>
    requires { (Ready image.now net.old scr.now) × (Sure image.now net.old scr.now) × (p < count_at_of image.now 0) × (n ≡ signal_width image.now p) × (n ≤ 1024) × (AllAfter false (walk_state image.now net.old scr.now) (model.signal_steps p 0 n)) }
    ensures { Ran (port_turn p n (walk_state image.now net.old scr.now)) image.now net.old scr.now result net.new scr.now }
{
    let mut nets = [0u32; 1024];
    scratch_tables::copy_signal(image, scr, p, 0, n, &mut nets, 0);
    net_ports::add_output_port(net, scr[scratch_view::LIMIT], p, &nets[..n as usize])?;
    Ok(())
}

// Output signal p, n bits wide.
fn connect_port(
    image: &[u8],
    net: &mut [u32],
    scr: &mut [u32],
    p: u32,
    n: u32,
) -> Result<(), Refusal>
    requires { (Ready image.now net.old scr.old) × (Sure image.now net.old scr.old) × (p < count_at_of image.now 0) × (n ≡ signal_width image.now p) }
    ensures { Ran (model.connect_output (decode image.now) false R.Output p n (walk_state image.now net.old scr.old)) image.now net.old scr.old result net.new scr.new }
{
    phase_signals::resolve_signal(image, net, scr, p, n)?;
    add_port(image, net, scr, p, n)
}

// Signal p, if it is an output.
fn connect_output(image: &[u8], net: &mut [u32], scr: &mut [u32], p: u32) -> Result<(), Refusal>
    requires { (Ready image.now net.old scr.old) × (Sure image.now net.old scr.old) × (p < count_at_of image.now 0) }
    ensures { Ran (output_turn image.now p (walk_state image.now net.old scr.old)) image.now net.old scr.old result net.new scr.new }
{
    let x = image_records::signal_at(image, p);
    match x.direction {
        Direction::Output => connect_port(image, net, scr, p, x.width),
        Direction::Internal | Direction::Input => Ok(()),
    }
}

pub fn connect_outputs(image: &[u8], net: &mut [u32], scr: &mut [u32]) -> Result<(), Refusal>
    requires { (Ready image.now net.old scr.old) × (Sure image.now net.old scr.old) }
    ensures { Phase (model.connect_outputs (decode image.now) false 0 (decode image.now).signals (walk_state image.now net.old scr.old)) image.now net.old scr.old result net.new scr.new }
{
    let n = image_fields::count(image, image_fields::SIGNALS);
    // Three lines; one loop over any step needs a longer contract, over all that a step may be lent.
    for p in 0..n {
        connect_output(image, net, scr, p)?;
    }
    Ok(())
}
