// What the phases ask of the walk for signals: a control's bit, where it is there, and the bits of an output.
#![tactic(auto)]

ghost use Rattle.std.specs.Prelude.{◌≤◌, ◌<◌};
ghost use Rattle.spec_rules.specs.Image.{count_at_of, signal_width};
ghost use Rattle.spec_model.specs.Lowering as model;
ghost use Rattle.image_records.specs.Others.{enable_means};
ghost use Rattle.walk_view.specs.View.{Ready, Sure};
ghost use Rattle.walk_invariant.specs.Steps.{GivesAll};
ghost use Rattle.phase_parts.specs.Parts.{ThereControl};

use image_records::Control;
use walk_view::Refusal;

// A control that may be absent.
pub fn lower_control(
    image: &[u8],
    net: &mut [u32],
    scr: &mut [u32],
    e: Option<Control>,
) -> Result<(), Refusal>
    requires { (Ready image.now net.old scr.old) × (Sure image.now net.old scr.old) × (ThereControl image.now (enable_means e)) }
    ensures { GivesAll image.now net.old scr.old (model.control_steps (enable_means e)) result net.new scr.new }
{
    match e {
        None => Ok(()),
        Some(c) => walk_recursion::resolve_signal_bit(image, net, scr, c.signal, 0),
    }
}

// The lowest w bits of signal p, in turn.
pub fn resolve_signal(
    image: &[u8],
    net: &mut [u32],
    scr: &mut [u32],
    p: u32,
    w: u32,
) -> Result<(), Refusal>
    requires { (Ready image.now net.old scr.old) × (Sure image.now net.old scr.old) × (p < count_at_of image.now 0) × (w ≤ signal_width image.now p) }
    ensures { GivesAll image.now net.old scr.old (model.signal_steps p 0 w) result net.new scr.new }
{
    for b in 0..w {
        walk_recursion::resolve_signal_bit(image, net, scr, p, b)?;
    }
    Ok(())
}
