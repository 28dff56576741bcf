// The header's words without its five record counts, and the slice's length.
#![tactic(auto)]

ghost use Rattle.std.specs.Prelude.{◌≡◌, min, length};
ghost use Rattle.spec_tests.specs.Options.{first_of};
ghost use Rattle.spec_netlist.specs.Accept.{wrong_header};
ghost use Rattle.stored_header.specs.Header.{too_short, wrong_offset};

use image_numbers::*;

// The list offset is 16 + 6N for an N from 1 to 65,535 that is not below the net count.
fn wrong_offset(nets: u32, at: u32) -> bool
    ensures { result ≡ wrong_offset nets at }
{
    if at < 16 {
        return true;
    }
    let limit = (at - 16) / 6;
    if limit < 1 {
        return true;
    }
    if 65535 < limit {
        return true;
    }
    if at != 16 + 6 * limit {
        return true;
    }
    limit < nets
}

// Header word i is wrong.
fn wrong_word(net: &[u32], i: usize) -> bool
    ensures { result ≡ wrong_header net.now i }
{
    let w = net_words::word_at(net, i);
    match i {
        0 => w != 1,
        1 => 65535 < w,
        2 => w != NODES_START,
        3 => 65535 < w,
        4 => wrong_offset(net_words::word_at(net, NET_COUNT), w),
        5..=9 => false,
        _ => w != 0,
    }
}

// The header words that are there.
pub fn header_words(net: &[u32]) -> usize
    ensures { result ≡ min 16 (length net.now) }
{
    net.len().min(HEADER_LENGTH)
}

// The first header word that is wrong, of those that are there.
pub fn first_word(net: &[u32]) -> Option<usize>
    ensures { result ≡ first_of (wrong_header net.now) (min 16 (length net.now)) }
{
    let n = header_words(net);
    for i in 0..n {
        if wrong_word(net, i) {
            return Some(i);
        }
    }
    None
}

// The slice ends too early.
pub fn too_short(net: &[u32]) -> bool
    ensures { result ≡ too_short net.now }
{
    if net.len() < HEADER_LENGTH {
        return true;
    }
    net.len() < net[LIST_AT] as usize + net[LIST_USED] as usize
}
