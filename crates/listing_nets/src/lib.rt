// The first line and the net lines of the listing, as text in a lent buffer: number, kind, name, value or cell and bit, inputs.
#![tactic(auto)]

ghost use Rattle.std.specs.Prelude.{◌≡◌, [], ◌∷◌, ◌++◌, ◌≤◌, length, get_or};
ghost use Rattle.spec_tests.specs.Rules.{list_of};
ghost use Rattle.spec_rules.specs.Listing as listing;
ghost use Rattle.listing_text.specs.Text.{Wrote, spaced};
ghost use Rattle.listing_nets.specs.Pieces.{bit_suffix, first_line};

use image_numbers::*;

// A kind's word.
fn kind_word(k: u32) -> &'static [u8]
    ensures { result.now ≡ listing.kind_word k }
{
    match k {
        INPUT => b"input",
        CONSTANT => b"constant",
        AND => b"and",
        OR => b"or",
        XOR => b"xor",
        NOT => b"not",
        MUX => b"mux",
        REGISTER_OUTPUT => b"registeroutput",
        OUTPUT => b"output",
        MEMORY_OUTPUT => b"memoryoutput",
        ARITHMETIC_OUTPUT => b"arithmeticoutput",
        COMPARISON_OUTPUT => b"comparisonoutput",
        _ => b"",
    }
}

// A bit's number in brackets; nothing where the width is 1.
fn bit_suffix(out: &mut [u8], at: usize, w: u32, bit: u32) -> usize
    requires { at ≤ length out.old }
    ensures { Wrote out.old at (bit_suffix w bit) out.new result }
{
    if w == 1 {
        return at;
    }
    let p = listing_text::put_byte(out, at, 91);
    let q = listing_text::decimal(out, p, bit);
    listing_text::put_byte(out, q, 93)
}

// A space and the name of a bit: a name, what marks a memory's second port, the bit's number.
fn bit_name(out: &mut [u8], at: usize, name: &[u8], mark: &[u8], w: u32, bit: u32) -> usize
    requires { at ≤ length out.old }
    ensures { Wrote out.old at (32 ∷ listing.bit_name (name.now ++ mark.now) w bit) out.new result }
{
    let p = listing_text::put_word(out, at, name);
    let q = listing_text::put(out, p, mark);
    bit_suffix(out, q, w, bit)
}

fn signal_name(image: &[u8], out: &mut [u8], at: usize, p: u32, bit: u32) -> usize
    requires { at ≤ length out.old }
    ensures { Wrote out.old at (32 ∷ listing.signal_name image.now p bit) out.new result }
{
    let w = image_fields::signal_width(image, p);
    let name = image_fields::name(image, image_fields::SIGNALS, p);
    bit_name(out, at, name, b"", w, bit)
}

fn register_name(image: &[u8], out: &mut [u8], at: usize, g: u32, bit: u32) -> usize
    requires { at ≤ length out.old }
    ensures { Wrote out.old at (32 ∷ listing.register_name image.now g bit) out.new result }
{
    let w = image_fields::signal_width(
        image,
        image_fields::record_field(image, image_fields::REGISTERS, g, 2),
    );
    let name = image_fields::name(image, image_fields::REGISTERS, g);
    bit_name(out, at, name, b"", w, bit)
}

fn memory_name(image: &[u8], out: &mut [u8], at: usize, m: u32, bit: u32) -> usize
    requires { at ≤ length out.old }
    ensures { Wrote out.old at (32 ∷ listing.memory_name image.now m bit) out.new result }
{
    let w = image_fields::signal_width(
        image,
        image_fields::record_field(image, image_fields::MEMORIES, m, image_fields::FIRST_DATA),
    );
    let name = image_fields::name(image, image_fields::MEMORIES, m);
    if bit < w {
        return bit_name(out, at, name, b"", w, bit);
    }
    bit_name(out, at, name, b"_b", w, bit - w)
}

// A node's name, value, or cell and bit, by its kind, behind spaces.
fn owned(image: &[u8], out: &mut [u8], at: usize, k: u32, owner: u32, bit: u32) -> usize
    requires { at ≤ length out.old }
    ensures { Wrote out.old at (spaced (listing.owned image.now k owner bit)) out.new result }
{
    match k {
        INPUT | OUTPUT => signal_name(image, out, at, owner, bit),
        CONSTANT => listing_text::put_number(out, at, owner),
        REGISTER_OUTPUT => register_name(image, out, at, owner, bit),
        MEMORY_OUTPUT => memory_name(image, out, at, owner, bit),
        ARITHMETIC_OUTPUT | COMPARISON_OUTPUT => {
            let p = listing_text::put_number(out, at, owner);
            listing_text::put_number(out, p, bit)
        }
        _ => at,
    }
}

// A node's inputs behind spaces, up to the first that is absent.
fn inputs(out: &mut [u8], at: usize, nets: &[u32]) -> usize
    requires { at ≤ length out.old }
    ensures { Wrote out.old at (spaced (listing.inputs nets.now)) out.new result }
{
    let mut to = at;
    for net in nets {
        if *net == ABSENT {
            return to;
        }
        to = listing_text::put_number(out, to, *net);
    }
    to
}

// The line of net n.
fn net_line(image: &[u8], net: &[u32], out: &mut [u8], at: usize, n: u32) -> usize
    requires { at ≤ length out.old }
    ensures { Wrote out.old at (listing.net_line image.now net.now n) out.new result }
{
    let k = net_words::node_word(net, n, 0);
    let p = listing_text::decimal(out, at, n);
    let q = listing_text::put_word(out, p, kind_word(k));
    let owner = net_words::node_word(net, n, 1);
    let bit = net_words::node_word(net, n, 2);
    let r = owned(image, out, q, k, owner, bit);
    let x = net_words::node_word(net, n, 3);
    let y = net_words::node_word(net, n, 4);
    let z = net_words::node_word(net, n, 5);
    let t = inputs(out, r, &[x, y, z]);
    listing_text::put_byte(out, t, 10)
}

// The lines of all nets.
pub fn net_lines(image: &[u8], net: &[u32], out: &mut [u8], at: usize) -> usize
    requires { at ≤ length out.old }
    ensures { Wrote out.old at (listing.together (list_of (get_or net.now 1 0) (listing.net_line image.now net.now))) out.new result }
{
    let count = net_words::word_at(net, NET_COUNT);
    let mut to = at;
    for n in 0..count {
        to = net_line(image, net, out, to, n);
    }
    to
}

// The first line: net count, list words.
pub fn first_line(net: &[u32], out: &mut [u8], at: usize) -> usize
    requires { at ≤ length out.old }
    ensures { Wrote out.old at (first_line net.now) out.new result }
{
    let p = listing_text::put(out, at, b"nets");
    let q = listing_text::put_number(out, p, net_words::word_at(net, NET_COUNT));
    let r = listing_text::put_word(out, q, b"list");
    let t = listing_text::put_number(out, r, net_words::word_at(net, LIST_USED));
    listing_text::put_byte(out, t, 10)
}
