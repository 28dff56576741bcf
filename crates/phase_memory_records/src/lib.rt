// The record of a memory: its words, read from the tables once its addresses and data are lowered, and pushed. Follows `connect_memories` of
// struo-synth.
#![tactic(auto)]

ghost use Rattle.std.specs.Prelude.{◌≡◌, true, ◌≤◌, ◌<◌, length};
ghost use Rattle.spec_rules.specs.Image.{count_at_of, signal_width, expr_width, decode};
ghost use Rattle.spec_model.specs.Words.{Netlist};
ghost use Rattle.spec_model.specs.Lowering as model;
ghost use Rattle.image_records.specs.Others.{port_means, memory_means};
ghost use Rattle.scratch_view.specs.View.{limit_of, is_whole, state_of, Laid};
ghost use Rattle.walk_view.specs.View.{walk_state, Ready, Sure};
ghost use Rattle.phase_parts.specs.Ran.{Ran};
ghost use Rattle.phase_memory_records.specs.Puts.{Puts};
ghost use Rattle.phase_memory_records.specs.Memories.{memory_words, PortThere, MemoryThere, PortWhole, MemoryWhole, read_nets, write_nets, net_words, tail_words};

use image_numbers::*;
use image_records::{Memory, MemoryPort};
use walk_view::Refusal;

// ---- the record's words, put at the front of a slice; the answer is how many ----

fn put_expr(image: &[u8], scr: &[u32], e: u32, out: &mut [u32]) -> usize
    requires { (Laid image.now scr.now) × (e < count_at_of image.now 1) × (is_whole image.now (limit_of scr.now) scr.now e ≡ true) × (expr_width image.now e ≤ length out.old) }
    ensures { (result ≡ expr_width image.now e) × ((l : Netlist) → Puts (model.whole_nets (state_of image.now l scr.now) e) result out.new) }
{
    let n = image_fields::expr_width(image, e);
    scratch_tables::copy_range(image, scr, e, 0, n, out, 0);
    n as usize
}

fn put_signal(image: &[u8], scr: &[u32], p: u32, out: &mut [u32]) -> usize
    requires { (Laid image.now scr.now) × (p < count_at_of image.now 0) × (signal_width image.now p ≤ length out.old) }
    ensures { (result ≡ signal_width image.now p) × ((l : Netlist) → Puts (model.signal_nets (state_of image.now l scr.now) p 0 (model.signal_width (decode image.now) p)) result out.new) }
{
    let n = image_fields::signal_width(image, p);
    scratch_tables::copy_signal(image, scr, p, 0, n, out, 0);
    n as usize
}

// The nets of a port's read address and read data.
fn put_read(image: &[u8], scr: &[u32], p: MemoryPort, out: &mut [u32]) -> usize
    requires { (Laid image.now scr.now) × (PortThere image.now (port_means p)) × (PortWhole image.now scr.now (port_means p)) × (1056 ≤ length out.old) }
    ensures { (result ≤ 1056) × ((l : Netlist) → Puts (read_nets (decode image.now) (state_of image.now l scr.now) (port_means p)) result out.new) }
{
    let n = put_expr(image, scr, p.read_address, out);
    n + put_signal(image, scr, p.read_data, &mut out[n..])
}

// The nets of its write address and write data.
fn put_write(image: &[u8], scr: &[u32], p: MemoryPort, out: &mut [u32]) -> usize
    requires { (Laid image.now scr.now) × (PortThere image.now (port_means p)) × (PortWhole image.now scr.now (port_means p)) × (1056 ≤ length out.old) }
    ensures { (result ≤ 1056) × ((l : Netlist) → Puts (write_nets (state_of image.now l scr.now) (port_means p)) result out.new) }
{
    let n = put_expr(image, scr, p.write_address, out);
    n + put_expr(image, scr, p.write_data, &mut out[n..])
}

// The four widths of a port and its nets.
fn put_nets(image: &[u8], scr: &[u32], p: MemoryPort, out: &mut [u32]) -> usize
    requires { (Laid image.now scr.now) × (PortThere image.now (port_means p)) × (PortWhole image.now scr.now (port_means p)) × (2116 ≤ length out.old) }
    ensures { (result ≤ 2116) × ((l : Netlist) → Puts (net_words (decode image.now) (state_of image.now l scr.now) (port_means p)) result out.new) }
{
    out[..4].copy_from_slice(&[
        image_fields::expr_width(image, p.read_address),
        image_fields::signal_width(image, p.read_data),
        image_fields::expr_width(image, p.write_address),
        image_fields::expr_width(image, p.write_data),
    ]);
    let n = 4 + put_read(image, scr, p, &mut out[4..]);
    n + put_write(image, scr, p, &mut out[n..])
}

// Its enables and its clock.
fn control_words(image: &[u8], scr: &[u32], p: MemoryPort) -> [u32; 6]
    requires { (Laid image.now scr.now) × (PortThere image.now (port_means p)) }
    ensures { (l : Netlist) → result ≡ tail_words (state_of image.now l scr.now) (port_means p) }
{
    let read = phase_parts::control_words(image, scr, p.read_enable);
    let write = phase_parts::control_words(image, scr, Some(p.write_enable));
    let clock = phase_parts::bit_net(image, scr, p.clock, 0);
    let edge = phase_parts::low_word(p.rising);
    [read.net, read.level, write.net, write.level, clock, edge]
}

fn put_port(image: &[u8], scr: &[u32], p: MemoryPort, out: &mut [u32]) -> usize
    requires { (Laid image.now scr.now) × (PortThere image.now (port_means p)) × (PortWhole image.now scr.now (port_means p)) × (2122 ≤ length out.old) }
    ensures { (result ≤ 2122) × ((l : Netlist) → Puts (model.port_words (decode image.now) (state_of image.now l scr.now) (port_means p)) result out.new) }
{
    let at = put_nets(image, scr, p, out);
    out[at..at + 6].copy_from_slice(&control_words(image, scr, p));
    at + 6
}

// The record of memory k.
fn put_memory(image: &[u8], scr: &[u32], k: u32, x: Memory, out: &mut [u32]) -> usize
    requires { (Laid image.now scr.now) × (MemoryThere image.now (memory_means x)) × (MemoryWhole image.now scr.now (memory_means x)) × (4250 ≤ length out.old) }
    ensures { (result ≤ 4250) × ((l : Netlist) → Puts (memory_words (decode image.now) k (memory_means x) (state_of image.now l scr.now)) result out.new) }
{
    let ports = 1 + u32::from(x.second.is_some());
    out[..6].copy_from_slice(&[MEMORY_RECORD, k, x.depth, x.style, 1, ports]);
    let end = 6 + put_port(image, scr, x.first, &mut out[6..]);
    match x.second {
        None => end,
        Some(p) => end + put_port(image, scr, p, &mut out[end..]),
    }
}

// ---- the record ----

pub fn push_memory(
    image: &[u8],
    net: &mut [u32],
    scr: &[u32],
    k: u32,
    x: Memory,
) -> Result<(), Refusal>
    requires { (Ready image.now net.old scr.now) × (Sure image.now net.old scr.now) × (MemoryThere image.now (memory_means x)) × (MemoryWhole image.now scr.now (memory_means x)) }
    ensures { Ran (model.push_record (memory_words (decode image.now) k (memory_means x) (walk_state image.now net.old scr.now)) (walk_state image.now net.old scr.now)) image.now net.old scr.now result net.new scr.now }
{
    let mut record = [0u32; 4250];
    let end = put_memory(image, scr, k, x, &mut record);
    phase_parts::push(image, net, scr, &record[..end])
}
