// `connect_registers` of struo-synth: each register's next value, clock, enable and reset are lowered, then each bit gets its record.
#![tactic(auto)]

ghost use Rattle.std.specs.Prelude.{false, ◌<◌};
ghost use Rattle.std.proofs.Math.Option.{some};
ghost use Rattle.spec_rules.specs.Image.{count_at_of, decode};
ghost use Rattle.spec_model.specs.Lowering as model;
ghost use Rattle.image_records.specs.Others.{register_means};
ghost use Rattle.walk_view.specs.View.{walk_state, Ready, Sure, Phase};
ghost use Rattle.walk_invariant.specs.Steps.{GivesAll};
ghost use Rattle.phase_parts.specs.Ran.{Ran};
ghost use Rattle.phase_register_records.specs.Registers.{reset_of, ThereReset, There};
ghost use Rattle.phase_registers.specs.Turns.{register_turn};

use image_records::{Register, Reset};
use walk_view::Refusal;

// ---- what is lowered before the bits ----

// The value of a reset, then its signal.
fn lower_reset(image: &[u8], net: &mut [u32], scr: &mut [u32], x: Reset) -> Result<(), Refusal>
    requires { (Ready image.now net.old scr.old) × (Sure image.now net.old scr.old) × (ThereReset image.now (some (reset_of x))) }
    ensures { GivesAll image.now net.old scr.old (model.reset_steps (some (reset_of x))) result net.new scr.new }
{
    walk_recursion::lower_expression(image, net, scr, x.value)?;
    walk_recursion::resolve_signal_bit(image, net, scr, x.control.signal, 0)
}

// Next value, clock, enable, reset.
fn lower_register(
    image: &[u8],
    net: &mut [u32],
    scr: &mut [u32],
    x: Register,
) -> Result<(), Refusal>
    requires { (Ready image.now net.old scr.old) × (Sure image.now net.old scr.old) × (There image.now (register_means x)) }
    ensures { GivesAll image.now net.old scr.old (model.register_steps (register_means x)) result net.new scr.new }
{
    walk_recursion::lower_expression(image, net, scr, x.next)?;
    walk_recursion::resolve_signal_bit(image, net, scr, x.clock, 0)?;
    phase_signals::lower_control(image, net, scr, x.enable)?;
    match x.reset {
        None => Ok(()),
        Some(y) => lower_reset(image, net, scr, y),
    }
}

// ---- registers ----

fn connect_register(image: &[u8], net: &mut [u32], scr: &mut [u32], k: u32) -> Result<(), Refusal>
    requires { (Ready image.now net.old scr.old) × (Sure image.now net.old scr.old) × (k < count_at_of image.now 4) }
    ensures { Ran (register_turn image.now k (walk_state image.now net.old scr.old)) image.now net.old scr.old result net.new scr.new }
{
    let x = image_records::register_at(image, k);
    lower_register(image, net, scr, x)?;
    phase_register_records::push_bits(image, net, scr, k, x)
}

pub fn connect_registers(image: &[u8], net: &mut [u32], scr: &mut [u32]) -> Result<(), Refusal>
    requires { (Ready image.now net.old scr.old) × (Sure image.now net.old scr.old) }
    ensures { Phase (model.connect_registers (decode image.now) false 0 (decode image.now).registers (walk_state image.now net.old scr.old)) image.now net.old scr.old result net.new scr.new }
{
    let n = image_fields::count(image, image_fields::REGISTERS);
    // Three lines; one loop over any step needs a longer contract, over all that a step may be lent.
    for k in 0..n {
        connect_register(image, net, scr, k)?;
    }
    Ok(())
}
