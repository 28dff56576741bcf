// The record lines of the listing, as text in a lent buffer: a port's name and nets; else the record's kind and its words after the first.
#![tactic(auto)]

ghost use Rattle.std.specs.Prelude.{◌≡◌, map, ◌≤◌, ◌<◌, length, drop};
ghost use Rattle.spec_rules.specs.NetlistImage.{records_of};
ghost use Rattle.spec_rules.specs.Listing as listing;
ghost use Rattle.listing_text.specs.Text.{Wrote, spaced};
ghost use Rattle.listing_records.specs.Pieces.{record_word, port_line, cell_line};
ghost use Rattle.listing_records.specs.Split.{Ends, lines_of};

use image_numbers::*;

// Words in decimal, each behind a space.
fn put_numbers(out: &mut [u8], at: usize, words: &[u32]) -> usize
    requires { at ≤ length out.old }
    ensures { Wrote out.old at (spaced (map listing.decimal words.now)) out.new result }
{
    let mut to = at;
    for word in words {
        to = listing_text::put_number(out, to, *word);
    }
    to
}

// The word of a record that is no port's, by the record's first word.
fn record_word(k: u32) -> &'static [u8]
    ensures { result.now ≡ record_word k }
{
    match k {
        REGISTER_RECORD => b"register",
        MEMORY_RECORD => b"memory",
        ARITHMETIC_RECORD => b"arithmetic",
        COMPARISON_RECORD => b"comparison",
        _ => b"",
    }
}

// A port's line: its name and nets.
fn port_line(image: &[u8], r: &[u32], out: &mut [u8], at: usize) -> usize
    requires { at ≤ length out.old }
    ensures { Wrote out.old at (port_line image.now r.now) out.new result }
{
    let p = listing_text::put(out, at, b"port");
    let signal = net_words::word_at(r, 1);
    let name = image_fields::name(image, image_fields::SIGNALS, signal);
    let q = listing_text::put_word(out, p, name);
    let t = put_numbers(out, q, net_words::part(r, 3));
    listing_text::put_byte(out, t, 10)
}

// Another record's line: its kind, and its words after the first.
fn cell_line(r: &[u32], out: &mut [u8], at: usize) -> usize
    requires { at ≤ length out.old }
    ensures { Wrote out.old at (cell_line r.now) out.new result }
{
    let p = listing_text::put(out, at, record_word(net_words::word_at(r, 0)));
    let q = put_numbers(out, p, net_words::part(r, 1));
    listing_text::put_byte(out, q, 10)
}

fn record_line(image: &[u8], r: &[u32], out: &mut [u8], at: usize) -> usize
    requires { at ≤ length out.old }
    ensures { Wrote out.old at (listing.record_line image.now r.now) out.new result }
{
    if net_words::word_at(r, 0) == PORT_RECORD {
        return port_line(image, r, out, at);
    }
    cell_line(r, out, at)
}

// Where the record that begins at a place ends: at the list's end at the latest.
fn record_end(list: &[u32], i: usize) -> usize
    requires { i < length list.now }
    ensures { Ends list.now i result }
{
    let rest = net_words::part(list, i);
    let n = net_words::record_length(rest);
    if n < rest.len() { i + n } else { list.len() }
}

// The lines of the records that a list holds.
fn lines_of(image: &[u8], list: &[u32], out: &mut [u8], at: usize) -> usize
    requires { at ≤ length out.old }
    ensures { Wrote out.old at (lines_of image.now list.now) out.new result }
{
    let mut to = at;
    let mut i = 0;
    // The step is by the record that was read.
    while i < list.len() {
        let end = record_end(list, i);
        to = record_line(image, net_words::stretch(list, i, end - i), out, to);
        i = end;
    }
    to
}

// The lines of all records.
pub fn record_lines(image: &[u8], net: &[u32], out: &mut [u8], at: usize) -> usize
    requires { at ≤ length out.old }
    ensures { Wrote out.old at (listing.together (map (listing.record_line image.now) (records_of net.now))) out.new result }
{
    let words = net_words::word_at(net, LIST_USED) as usize;
    let start = net_words::word_at(net, LIST_AT) as usize;
    lines_of(image, net_words::stretch(net, start, words), out, at)
}
