// Registers and memories over one step, on tables of words: old has the values of all nets before it; new gets those of register outputs
// and read data, and has the new inputs.
#![tactic(auto)]

ghost use Rattle.std.specs.Prelude.{◌≡◌, ◌<◌, length, set};
ghost use Rattle.spec_rtl.specs.Word.{bit};
ghost use Rattle.spec_tests.specs.Rules.{◌≡?◌};
ghost use Rattle.spec_rules.specs.Image.{optional, control_of};
ghost use Rattle.spec_rules.specs.NetlistImage.{register_bit_of};
ghost use Rattle.spec_rules.specs.Step.{edge, active, enabled, resets};
ghost use Rattle.trace_step.specs.Words.{on, register_bit, register_done, registers_done};
ghost use Rattle.trace_step.specs.Chains.{clocked_bit};

use image_numbers::*;

// The bit of net x.
pub fn is_on(values: &[u32], x: u32) -> bool
    ensures { result ≡ on values.now x }
{
    net_words::word_at(values, x as usize) == 1
}

pub fn bit_of(b: bool) -> u32
    ensures { result ≡ bit b }
{
    u32::from(b)
}

// Gives net x a word.
pub fn put(values: &mut [u32], x: u32, b: u32)
    ensures { values.new ≡ set values.old x b }
{
    if (x as usize) < values.len() {
        values[x as usize] = b;
    }
}

// A control at net x is active.
pub fn is_active(values: &[u32], x: u32, level: u32) -> bool
    ensures { result ≡ active (on values.now) (control_of x level) }
{
    if level == 0 {
        return is_on(values, x);
    }
    !is_on(values, x)
}

// It is absent or active.
pub fn is_enabled(values: &[u32], x: u32, level: u32) -> bool
    ensures { result ≡ enabled (on values.now) (optional x (control_of x level)) }
{
    if x == ABSENT {
        return true;
    }
    is_active(values, x, level)
}

// The clock at net x makes its edge.
pub fn ticks(old: &[u32], new: &[u32], x: u32, falling: u32) -> bool
    ensures { result ≡ edge (falling ≡? 0) (on old.now x) (on new.now x) }
{
    let before = is_on(old, x);
    let after = is_on(new, x);
    if falling == 0 {
        if before {
            return false;
        }
        return after;
    }
    if after {
        return false;
    }
    before
}

// The register's reset is of this kind, and active.
fn is_reset(r: &[u32], values: &[u32], asynchronous: bool) -> bool
    ensures { result ≡ resets asynchronous (on values.now) (register_bit_of r.now).register.reset }
{
    let x = net_words::word_at(r, 9);
    if x == ABSENT {
        return false;
    }
    let kind = net_words::word_at(r, 11) == 1;
    if kind != asynchronous {
        return false;
    }
    is_active(values, x, net_words::word_at(r, 10))
}

// The bit that a register takes at its clock's edge.
fn clocked_bit(r: &[u32], old: &[u32]) -> bool
    ensures { result ≡ clocked_bit old.now r.now }
{
    if is_reset(r, old, false) {
        return net_words::word_at(r, 12) == 1;
    }
    if is_enabled(old, net_words::word_at(r, 7), net_words::word_at(r, 8)) {
        return is_on(old, net_words::word_at(r, 4));
    }
    is_on(old, net_words::word_at(r, 3))
}

// The bit that it has after the step.
fn register_bit(r: &[u32], old: &[u32], new: &[u32]) -> bool
    ensures { result ≡ register_bit old.now new.now r.now }
{
    if is_reset(r, new, true) {
        return net_words::word_at(r, 12) == 1;
    }
    if ticks(old, new, net_words::word_at(r, 5), net_words::word_at(r, 6)) {
        return clocked_bit(r, old);
    }
    is_on(old, net_words::word_at(r, 3))
}

fn load_register(r: &[u32], old: &[u32], new: &mut [u32])
    ensures { new.new ≡ register_done old.now new.old r.now }
{
    let b = bit_of(register_bit(r, old, new));
    put(new, net_words::word_at(r, 3), b);
}

// All registers, at the places of their records.
pub fn load_registers(net: &[u32], places: &[u32], old: &[u32], new: &mut [u32])
    ensures { new.new ≡ registers_done net.now old.now places.now (length places.now) new.old }
{
    for place in places {
        load_register(net_words::part(net, *place as usize), old, new);
    }
}
