// What connecting memories, registers and outputs of struo-synth has in common: words of a list record, and the record pushed.
#![tactic(auto)]

ghost use Rattle.std.specs.Prelude.{◌≡◌, ◌<◌, get_or};
ghost use Rattle.spec_rules.specs.Image.{count_at_of, signal_width};
ghost use Rattle.spec_model.specs.Words.{Netlist, low_word};
ghost use Rattle.spec_model.specs.Lowering.{signal_net, push_record};
ghost use Rattle.net_view.specs.View.{Formed};
ghost use Rattle.scratch_view.specs.View.{state_of, Laid};
ghost use Rattle.image_records.specs.Others.{enable_means};
ghost use Rattle.walk_view.specs.View.{walk_state, Ready, Sure};
ghost use Rattle.phase_parts.specs.Ran.{Ran};
ghost use Rattle.phase_parts.specs.Parts.{ThereControl, IsControl};

use image_numbers::ABSENT;
use image_records::Control;
use walk_view::Refusal;

// A control in a record: its net and its level.
#[derive(Clone, Copy)]
pub struct ControlWords {
    pub net: u32,
    pub level: u32,
}

// Of an edge or a level: 0 is rising, 0 is high.
pub fn low_word(b: bool) -> u32
    ensures { result ≡ low_word b }
{
    u32::from(!b)
}

// The net of bit b of signal p, absent where it has none.
pub fn bit_net(image: &[u8], scr: &[u32], p: u32, b: u32) -> u32
    requires { (Laid image.now scr.now) × (p < count_at_of image.now 0) × (b < signal_width image.now p) }
    ensures { (l : Netlist) → result ≡ signal_net (state_of image.now l scr.now) p b }
{
    scratch_tables::signal_net(image, scr, p, b).unwrap_or(ABSENT)
}

pub fn control_words(image: &[u8], scr: &[u32], e: Option<Control>) -> ControlWords
    requires { (Laid image.now scr.now) × (ThereControl image.now (enable_means e)) }
    ensures { IsControl image.now scr.now (enable_means e) result }
{
    match e {
        None => ControlWords {
            net: ABSENT,
            level: 0,
        },
        Some(c) => ControlWords {
            net: bit_net(image, scr, c.signal, 0),
            level: low_word(c.level),
        },
    }
}

// A register's or a memory's record, if there is room for it.
pub fn push(image: &[u8], net: &mut [u32], scr: &[u32], r: &[u32]) -> Result<(), Refusal>
    requires { (Ready image.now net.old scr.now) × (Sure image.now net.old scr.now) × (Formed r.now) × (0 < get_or r.now 0 0) × (get_or r.now 0 0 < 3) }
    ensures { Ran (push_record r.now (walk_state image.now net.old scr.now)) image.now net.old scr.now result net.new scr.now }
{
    match net_records::push_record(net, scr[scratch_view::LIMIT], r) {
        Ok(()) => Ok(()),
        Err(_) => Err(Refusal::ListFull),
    }
}
