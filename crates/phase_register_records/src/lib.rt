// The records of a register, one a bit: their words, read from the tables once its parts are lowered, and pushed. A reset value's bit that is no
// constant is refused. Follows `connect_registers` of struo-synth.
#![tactic(auto)]

ghost use Rattle.std.proofs.Math.Option.{some};
ghost use Rattle.std.specs.Prelude.{◌<◌};
ghost use Rattle.spec_rules.specs.Image.{signal_width, expr_width};
ghost use Rattle.check_references.specs.Good.{GoodBit};
ghost use Rattle.spec_model.specs.Lowering as model;
ghost use Rattle.image_records.specs.Others.{register_means};
ghost use Rattle.scratch_view.specs.View.{Laid};
ghost use Rattle.walk_view.specs.View.{walk_state, Ready, Sure};
ghost use Rattle.phase_parts.specs.Ran.{Ran};
ghost use Rattle.phase_register_records.specs.Registers.{bits_turn, reset_of, ThereReset, There, WholeReset, Wholes, bit_words, four_words, IsReset};

use image_numbers::*;
use image_records::{Register, Reset};
use walk_view::Refusal;

// A reset in a record: net, level, mode, value.
#[derive(Clone, Copy)]
pub struct ResetWords {
    pub net: u32,
    pub level: u32,
    pub mode: u32,
    pub value: u32,
}

fn reset_words(image: &[u8], scr: &[u32], x: Reset, v: u32) -> ResetWords
    requires { (Laid image.now scr.now) × (GoodBit image.now (reset_of x).control.signal) }
    ensures { IsReset image.now scr.now (reset_of x) v result }
{
    let c = x.control;
    ResetWords {
        net: phase_parts::bit_net(image, scr, c.signal, 0),
        level: phase_parts::low_word(c.level),
        mode: u32::from(x.asynchronous),
        value: v,
    }
}

// The record of bit b of register k.
fn push_register(
    image: &[u8],
    net: &mut [u32],
    scr: &[u32],
    k: u32,
    x: Register,
    b: u32,
    z: ResetWords,
) -> Result<(), Refusal>
    requires { (Ready image.now net.old scr.now) × (Sure image.now net.old scr.now) × (There image.now (register_means x)) × (Wholes image.now scr.now (register_means x)) × (b < signal_width image.now (register_means x).target) }
    ensures { Ran (model.push_record (bit_words k (register_means x) b (walk_state image.now net.old scr.now) (four_words z)) (walk_state image.now net.old scr.now)) image.now net.old scr.now result net.new scr.now }
{
    let target = phase_parts::bit_net(image, scr, x.target, b);
    let next = scratch_tables::expr_net(image, scr, x.next, b);
    let clock = phase_parts::bit_net(image, scr, x.clock, 0);
    let edge = phase_parts::low_word(x.rising);
    let c = phase_parts::control_words(image, scr, x.enable);
    let record = [
        REGISTER_RECORD,
        k,
        b,
        target,
        next,
        clock,
        edge,
        c.net,
        c.level,
        z.net,
        z.level,
        z.mode,
        z.value,
    ];
    phase_parts::push(image, net, scr, &record)
}

// The same where the register has a reset.
fn push_reset(
    image: &[u8],
    net: &mut [u32],
    scr: &[u32],
    k: u32,
    x: Register,
    b: u32,
    y: Reset,
) -> Result<(), Refusal>
    requires { (Ready image.now net.old scr.now) × (Sure image.now net.old scr.now) × (There image.now (register_means x)) × (Wholes image.now scr.now (register_means x)) × (b < signal_width image.now (register_means x).target) × (ThereReset image.now (some (reset_of y))) × (b < expr_width image.now (reset_of y).value) × (WholeReset image.now scr.now (some (reset_of y))) }
    ensures { Ran (model.register_bit (some (reset_of y)) k (register_means x) b (walk_state image.now net.old scr.now)) image.now net.old scr.now result net.new scr.now }
{
    let value = scratch_tables::expr_net(image, scr, y.value, b);
    match net_nodes::constant_value(net, value) {
        Some(v) => {
            let z = reset_words(image, scr, y, u32::from(v));
            push_register(image, net, scr, k, x, b, z)
        }
        None => Err(Refusal::Reset(k, b)),
    }
}

fn push_bit(
    image: &[u8],
    net: &mut [u32],
    scr: &[u32],
    k: u32,
    x: Register,
    b: u32,
) -> Result<(), Refusal>
    requires { (Ready image.now net.old scr.now) × (Sure image.now net.old scr.now) × (There image.now (register_means x)) × (Wholes image.now scr.now (register_means x)) × (b < signal_width image.now (register_means x).target) }
    ensures { Ran (model.register_bit (register_means x).reset k (register_means x) b (walk_state image.now net.old scr.now)) image.now net.old scr.now result net.new scr.now }
{
    match x.reset {
        None => {
            let z = ResetWords {
                net: ABSENT,
                level: 0,
                mode: 0,
                value: 0,
            };
            push_register(image, net, scr, k, x, b, z)
        }
        Some(y) => push_reset(image, net, scr, k, x, b, y),
    }
}

// The records of all bits of register k.
pub fn push_bits(
    image: &[u8],
    net: &mut [u32],
    scr: &[u32],
    k: u32,
    x: Register,
) -> Result<(), Refusal>
    requires { (Ready image.now net.old scr.now) × (Sure image.now net.old scr.now) × (There image.now (register_means x)) × (Wholes image.now scr.now (register_means x)) }
    ensures { Ran (bits_turn image.now k (register_means x) (walk_state image.now net.old scr.now)) image.now net.old scr.now result net.new scr.now }
{
    let n = image_fields::signal_width(image, x.target);
    for b in 0..n {
        push_bit(image, net, scr, k, x, b)?;
    }
    Ok(())
}
