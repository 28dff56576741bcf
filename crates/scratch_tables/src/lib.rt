// The walk's tables in its scratch: nets, drivers and marks of signal bits, nets of expression bits. Each function reads or writes
// one of them; the image is what the contracts speak of.
#![tactic(auto)]

ghost use Rattle.std.specs.Prelude.{◌≡◌, false, map, suc, ◌+◌, ◌≤◌, ◌<◌, length, get_or, set, take};
ghost use Rattle.std.proofs.Math.Seq.{paste};
ghost use Rattle.spec_tests.specs.Options.{option_of};
ghost use Rattle.spec_tests.specs.Rules.{list_of};
ghost use Rattle.spec_rules.specs.Image.{count_at_of, signal_width, expr_width, decode};
ghost use Rattle.spec_model.specs.Words.{Netlist};
ghost use Rattle.spec_model.specs.Lowering.{cell, signal_bit, signal_nets, range_nets, range_known, all_some, set_signal_bit, set_signal, set_whole, set_range, driver_of};
ghost use Rattle.scratch_view.specs.View.{limit_of, known, net_word, is_whole, state_of, Laid, Writes, Marks};
ghost use Rattle.scratch_tables.specs.Answers.{SignalPlace, ExprPlace, ExprNet, Small};

use image_numbers::ABSENT;

// ---- words and places ----

// The net that a word says, if it is there yet.
fn as_known(x: u32) -> Option<u32>
    ensures { option_of result ≡ known x }
{
    x.checked_sub(1)
}

fn net_word(x: u32) -> u32
    ensures { result ≡ net_word x }
{
    if x == 0 { ABSENT } else { x - 1 }
}

// Where the net of bit b of signal p stands; past the last bit where its stretch ends.
fn signal_place(image: &[u8], scr: &[u32], p: u32, b: u32) -> usize
    requires { (Laid image.now scr.now) × (p < count_at_of image.now 0) × (b ≤ signal_width image.now p) }
    ensures { SignalPlace image.now scr.now p b result }
{
    let column = scratch_view::FIXED + 4 * (scr[scratch_view::LIMIT] as usize);
    let bits = scr[scratch_view::SIGNAL_BITS] as usize;
    let first = scr[column + 3 * bits + p as usize] as usize;
    column + (first + b as usize)
}

// Where the net of bit b of expression e stands; past the last bit where its stretch ends.
fn expr_place(image: &[u8], scr: &[u32], e: u32, b: u32) -> usize
    requires { (Laid image.now scr.now) × (e < count_at_of image.now 1) × (b ≤ expr_width image.now e) }
    ensures { ExprPlace image.now scr.now e b result }
{
    let words = scr[scratch_view::ROWS] as usize + scratch_view::ROW * (e as usize);
    let first = scr[words] as usize;
    scr[scratch_view::NETS] as usize + (first + b as usize)
}

// ---- signal bits ----

pub fn signal_net(image: &[u8], scr: &[u32], p: u32, b: u32) -> Option<u32>
    requires { (Laid image.now scr.now) × (p < count_at_of image.now 0) × (b < signal_width image.now p) }
    ensures { (l : Netlist) → option_of result ≡ signal_bit (state_of image.now l scr.now) p b }
{
    let at = signal_place(image, scr, p, b);
    as_known(scr[at])
}

pub fn keep_signal(image: &[u8], scr: &mut [u32], p: u32, b: u32, x: u32)
    requires { (Laid image.now scr.old) × (p < count_at_of image.now 0) × (b < signal_width image.now p) × (x < 65535) }
    ensures { Writes (λ st. set_signal_bit st p b x) image.now scr.old scr.new }
{
    let at = signal_place(image, scr, p, b);
    scr[at] = x + 1;
}

pub fn marked(image: &[u8], scr: &[u32], p: u32, b: u32) -> bool
    requires { (Laid image.now scr.now) × (p < count_at_of image.now 0) × (b < signal_width image.now p) }
    ensures { (l : Netlist) → result ≡ cell false (state_of image.now l scr.now).resolving p b }
{
    let at = signal_place(image, scr, p, b) + 2 * (scr[scratch_view::SIGNAL_BITS] as usize);
    scr[at] != 0
}

pub fn mark_signal(image: &[u8], scr: &mut [u32], p: u32, b: u32)
    requires { (Laid image.now scr.old) × (p < count_at_of image.now 0) × (b < signal_width image.now p) }
    ensures { Marks image.now p b scr.old scr.new }
{
    let bits = scr[scratch_view::SIGNAL_BITS] as usize;
    let at = signal_place(image, scr, p, b) + 2 * bits;
    scr[at] = 1;
}

// The expression and its bit that drive a signal's bit, if an assignment does.
pub fn driver_of(image: &[u8], scr: &[u32], p: u32, b: u32) -> Option<(u32, u32)>
    requires { (Laid image.now scr.now) × (p < count_at_of image.now 0) × (b < signal_width image.now p) }
    ensures { option_of result ≡ driver_of (decode image.now) p b }
{
    let at = signal_place(image, scr, p, b) + scr[scratch_view::SIGNAL_BITS] as usize;
    let x = scr[at];
    if x == 0 {
        return None;
    }
    Some((x / 1024 - 1, x % 1024))
}

// ---- expression bits ----

pub fn is_whole(image: &[u8], scr: &[u32], e: u32) -> bool
    requires { (Laid image.now scr.now) × (e < count_at_of image.now 1) }
    ensures { result ≡ is_whole image.now (limit_of scr.now) scr.now e }
{
    let at = scr[scratch_view::ROWS] as usize
        + scratch_view::ROW * (e as usize)
        + scratch_view::WHOLE;
    scr[at] != 0
}

// The net of an expression's bit, lowered whole or by a range.
pub fn expr_net(image: &[u8], scr: &[u32], e: u32, b: u32) -> u32
    requires { (Laid image.now scr.now) × (e < count_at_of image.now 1) × (b < expr_width image.now e) }
    ensures { ExprNet image.now scr.now e b result }
{
    let at = expr_place(image, scr, e, b);
    net_word(scr[at])
}

// Whether the n words from a place on all hold nets.
fn all_known(scr: &[u32], at: usize, n: u32) -> bool
    requires { at + n ≤ length scr.now }
    ensures { result ≡ all_some (list_of n (λ i. known (get_or scr.now (at + i) 0))) }
{
    for i in 0..n {
        if scr[at + i as usize] == 0 {
            return false;
        }
    }
    true
}

pub fn range_known(image: &[u8], scr: &[u32], e: u32, lsb: u32, n: u32) -> bool
    requires { (Laid image.now scr.now) × (e < count_at_of image.now 1) × (lsb + n ≤ expr_width image.now e) }
    ensures { (l : Netlist) → result ≡ range_known (state_of image.now l scr.now) e lsb n }
{
    if is_whole(image, scr, e) {
        return true;
    }
    let at = expr_place(image, scr, e, lsb);
    all_known(scr, at, n)
}

// ---- copies of nets ----

// The nets of n words, to a list of nets from a place on.
fn copy_nets(scr: &[u32], at: usize, n: u32, out: &mut [u32], to: usize)
    requires { (at + n ≤ length scr.now) × (to + n ≤ length out.old) }
    ensures { out.new ≡ paste out.old to (list_of n (λ i. net_word (get_or scr.now (at + i) 0))) n }
{
    for i in 0..n {
        out[to + i as usize] = net_word(scr[at + i as usize]);
    }
}

pub fn copy_signal(image: &[u8], scr: &[u32], p: u32, lsb: u32, n: u32, out: &mut [u32], to: usize)
    requires { (Laid image.now scr.now) × (p < count_at_of image.now 0) × (lsb + n ≤ signal_width image.now p) × (to + n ≤ length out.old) }
    ensures { (l : Netlist) → out.new ≡ paste out.old to (signal_nets (state_of image.now l scr.now) p lsb n) n }
{
    let at = signal_place(image, scr, p, lsb);
    copy_nets(scr, at, n, out, to);
}

pub fn copy_range(image: &[u8], scr: &[u32], e: u32, lsb: u32, n: u32, out: &mut [u32], to: usize)
    requires { (Laid image.now scr.now) × (e < count_at_of image.now 1) × (lsb + n ≤ expr_width image.now e) × (to + n ≤ length out.old) }
    ensures { (l : Netlist) → out.new ≡ paste out.old to (range_nets (state_of image.now l scr.now) e lsb n) n }
{
    let at = expr_place(image, scr, e, lsb);
    copy_nets(scr, at, n, out, to);
}

// ---- stretches ----

// The nets, into the stretch that part begins with.
fn fill(part: &mut [u32], nets: &[u32])
    requires { (length nets.now ≤ length part.old) × Small (length nets.now) nets.now }
    ensures { part.new ≡ paste part.old 0 (map suc nets.now) (length nets.now) }
{
    for (i, x) in nets.iter().enumerate() {
        part[i] = *x + 1;
    }
}

// All nets of a signal.
pub fn keep_signals(image: &[u8], scr: &mut [u32], p: u32, nets: &[u32])
    requires { (Laid image.now scr.old) × (p < count_at_of image.now 0) × (length nets.now ≡ signal_width image.now p) × Small (length nets.now) nets.now }
    ensures { Writes (λ st. set_signal st p nets.now) image.now scr.old scr.new }
{
    let at = signal_place(image, scr, p, 0);
    fill(&mut scr[at..], nets);
}

// All nets of an expression: it is whole.
pub fn keep_whole(image: &[u8], scr: &mut [u32], e: u32, nets: &[u32])
    requires { (Laid image.now scr.old) × (e < count_at_of image.now 1) × (length nets.now ≡ expr_width image.now e) × Small (length nets.now) nets.now }
    ensures { Writes (λ st. set_whole st e nets.now) image.now scr.old scr.new }
{
    let flag = scr[scratch_view::ROWS] as usize
        + scratch_view::ROW * (e as usize)
        + scratch_view::WHOLE;
    let at = expr_place(image, scr, e, 0);
    fill(&mut scr[at..], nets);
    scr[flag] = 1;
}

// The nets of a range of an expression, from bit lsb on; a whole one has them already.
pub fn keep_range(image: &[u8], scr: &mut [u32], e: u32, lsb: u32, nets: &[u32])
    requires { (Laid image.now scr.old) × (e < count_at_of image.now 1) × (lsb + length nets.now ≤ expr_width image.now e) × Small (length nets.now) nets.now }
    ensures { Writes (λ st. set_range st e lsb nets.now) image.now scr.old scr.new }
{
    if is_whole(image, scr, e) {
        return;
    }
    let at = expr_place(image, scr, e, lsb);
    fill(&mut scr[at..], nets);
}
