// `connect_memories` of struo-synth: each memory's addresses, data, clocks and enables are lowered, then its record is pushed.
#![tactic(auto)]

ghost use Rattle.std.specs.Prelude.{false, ◌<◌};
ghost use Rattle.spec_rules.specs.Image.{count_at_of, decode};
ghost use Rattle.spec_model.specs.Lowering as model;
ghost use Rattle.image_records.specs.Others.{port_means, memory_means};
ghost use Rattle.walk_view.specs.View.{walk_state, Ready, Sure, Phase};
ghost use Rattle.walk_invariant.specs.Steps.{GivesAll};
ghost use Rattle.phase_parts.specs.Ran.{Ran};
ghost use Rattle.phase_memory_records.specs.Memories.{PortThere, MemoryThere};
ghost use Rattle.phase_memories.specs.Turns.{first_steps, last_steps, memory_turn};

use image_records::{Memory, MemoryPort};
use walk_view::Refusal;

// ---- what is lowered before the record ----

// Addresses and data of a port.
fn lower_words(image: &[u8], net: &mut [u32], scr: &mut [u32], p: MemoryPort) -> Result<(), Refusal>
    requires { (Ready image.now net.old scr.old) × (Sure image.now net.old scr.old) × (PortThere image.now (port_means p)) }
    ensures { GivesAll image.now net.old scr.old (model.word_steps (port_means p)) result net.new scr.new }
{
    walk_recursion::lower_expression(image, net, scr, p.read_address)?;
    walk_recursion::lower_expression(image, net, scr, p.write_address)?;
    walk_recursion::lower_expression(image, net, scr, p.write_data)
}

fn lower_enables(
    image: &[u8],
    net: &mut [u32],
    scr: &mut [u32],
    p: MemoryPort,
) -> Result<(), Refusal>
    requires { (Ready image.now net.old scr.old) × (Sure image.now net.old scr.old) × (PortThere image.now (port_means p)) }
    ensures { GivesAll image.now net.old scr.old (model.enable_steps (port_means p)) result net.new scr.new }
{
    walk_recursion::resolve_signal_bit(image, net, scr, p.write_enable.signal, 0)?;
    phase_signals::lower_control(image, net, scr, p.read_enable)
}

// At the first port the clock comes before the enables, at the second after them: the order tells which refusal is named.
fn lower_first(image: &[u8], net: &mut [u32], scr: &mut [u32], p: MemoryPort) -> Result<(), Refusal>
    requires { (Ready image.now net.old scr.old) × (Sure image.now net.old scr.old) × (PortThere image.now (port_means p)) }
    ensures { GivesAll image.now net.old scr.old (first_steps (port_means p)) result net.new scr.new }
{
    lower_words(image, net, scr, p)?;
    walk_recursion::resolve_signal_bit(image, net, scr, p.clock, 0)?;
    lower_enables(image, net, scr, p)
}

fn lower_last(image: &[u8], net: &mut [u32], scr: &mut [u32], p: MemoryPort) -> Result<(), Refusal>
    requires { (Ready image.now net.old scr.old) × (Sure image.now net.old scr.old) × (PortThere image.now (port_means p)) }
    ensures { GivesAll image.now net.old scr.old (last_steps (port_means p)) result net.new scr.new }
{
    lower_words(image, net, scr, p)?;
    lower_enables(image, net, scr, p)?;
    walk_recursion::resolve_signal_bit(image, net, scr, p.clock, 0)
}

fn lower_memory(image: &[u8], net: &mut [u32], scr: &mut [u32], x: Memory) -> Result<(), Refusal>
    requires { (Ready image.now net.old scr.old) × (Sure image.now net.old scr.old) × (MemoryThere image.now (memory_means x)) }
    ensures { GivesAll image.now net.old scr.old (model.memory_steps (memory_means x)) result net.new scr.new }
{
    lower_first(image, net, scr, x.first)?;
    match x.second {
        None => Ok(()),
        Some(p) => lower_last(image, net, scr, p),
    }
}

// ---- memories ----

fn connect_memory(image: &[u8], net: &mut [u32], scr: &mut [u32], k: u32) -> Result<(), Refusal>
    requires { (Ready image.now net.old scr.old) × (Sure image.now net.old scr.old) × (k < count_at_of image.now 5) }
    ensures { Ran (memory_turn image.now k (walk_state image.now net.old scr.old)) image.now net.old scr.old result net.new scr.new }
{
    let x = image_records::memory_at(image, k);
    lower_memory(image, net, scr, x)?;
    phase_memory_records::push_memory(image, net, scr, k, x)
}

pub fn connect_memories(image: &[u8], net: &mut [u32], scr: &mut [u32]) -> Result<(), Refusal>
    requires { (Ready image.now net.old scr.old) × (Sure image.now net.old scr.old) }
    ensures { Phase (model.connect_memories (decode image.now) false 0 (decode image.now).memories (walk_state image.now net.old scr.old)) image.now net.old scr.old result net.new scr.new }
{
    let n = image_fields::count(image, image_fields::MEMORIES);
    // Three lines; one loop over any step needs a longer contract, over all that a step may be lent.
    for k in 0..n {
        connect_memory(image, net, scr, k)?;
    }
    Ok(())
}
