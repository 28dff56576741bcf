// A netlist image taken back in: header, length, nodes, list, nodes left without a record, record counts, in this order.
#![tactic(auto)]

ghost use Rattle.std.specs.Prelude.{◌≡◌, ◌*◌, ◌≤◌, ◌<◌, length};
ghost use Rattle.spec_tests.specs.Options.{first_of};
ghost use Rattle.spec_rules.specs.NetlistImage.{records_of};
ghost use Rattle.spec_netlist.specs.Accept.{nets, alone, wrong_count, accepts};
ghost use Rattle.spec_call.specs.Call.{numbers_of};
ghost use Rattle.stored_view.specs.Opened.{Opened, Marked, Counted};
ghost use Rattle.stored_check.specs.Answer.{answer_of};
ghost use Rattle.stored_check.specs.Stages.{from_left, from_list_of, from_nodes};
ghost use Rattle.stored_check.specs.Cut.{list_end};

use image_numbers::*;

// The number of the first wrong word in the slice.
#[derive(Clone, Copy)]
pub struct WrongWord(pub u32);

// Net n belongs to a record, and none lists it.
fn is_left(net: &[u32], marks: &[u16], n: u32) -> bool
    requires { (Opened net.now) × (nets net.now ≤ length marks.now) × (Marked net.now (records_of net.now) marks.now) × (n < nets net.now) }
    ensures { result ≡ alone net.now n }
{
    if !stored_nodes::is_owned(net[HEADER_LENGTH + NODE_LENGTH * (n as usize)]) {
        return false;
    }
    !(marks[n as usize] != 0)
}

// The first such net.
fn first_left(net: &[u32], marks: &[u16]) -> Option<u32>
    requires { (Opened net.now) × (nets net.now ≤ length marks.now) × (Marked net.now (records_of net.now) marks.now) }
    ensures { result ≡ first_of (alone net.now) (nets net.now) }
{
    let count = net[NET_COUNT];
    for n in 0..count {
        if is_left(net, marks, n) {
            return Some(n);
        }
    }
    None
}

// The first of the header's record counts that is not that of the list.
fn first_count(net: &[u32], counts: &[u32; 5]) -> Option<usize>
    requires { (Opened net.now) × (Counted (records_of net.now) counts.now) }
    ensures { result ≡ first_of (wrong_count net.now) 5 }
{
    for (t, count) in counts.iter().enumerate() {
        if net[RECORD_COUNTS + t] != *count {
            return Some(t);
        }
    }
    None
}

// Nodes left without a record, then the counts.
fn check_rest(net: &[u32], marks: &[u16], counts: &[u32; 5]) -> Result<(), WrongWord>
    requires { (Opened net.now) × (nets net.now ≤ length marks.now) × (Marked net.now (records_of net.now) marks.now) × (Counted (records_of net.now) counts.now) }
    ensures { answer_of result ≡ from_left net.now }
{
    if let Some(n) = first_left(net, marks) {
        return Err(WrongWord(NODES_START + 6 * n));
    }
    if let Some(t) = first_count(net, counts) {
        return Err(WrongWord((RECORD_COUNTS + t) as u32));
    }
    Ok(())
}

// The list and what follows.
fn check_list(net: &[u32], marks: &mut [u16]) -> Result<(), WrongWord>
    requires { (Opened net.now) × (nets net.now ≤ length marks.old) }
    ensures { answer_of result ≡ from_list_of net.now }
{
    let mut counts = [0; 5];
    if let Some(i) = stored_list::first_word(net, marks, &mut counts) {
        return Err(WrongWord(net[LIST_AT] + i as u32));
    }
    check_rest(net, marks, &counts)
}

// The nodes and what follows, with a lent table: it serves as the marks of listed nets once the nodes are judged.
fn check_with(net: &[u32], table: &mut [u16]) -> Result<(), WrongWord>
    requires { (Opened net.now) × (3 * nets net.now ≤ length table.old) }
    ensures { answer_of result ≡ from_nodes net.now }
{
    if let Some(i) = stored_nodes::first_word(net, table) {
        return Err(WrongWord(NODES_START + i as u32));
    }
    check_list(net, table)
}

// Whether the words are a netlist image, or its first wrong word, with a lent table of three words for each net.
fn check_in(net: &[u32], table: &mut [u16]) -> Result<(), WrongWord>
    requires { nets net.now ≤ 65535 → 3 * nets net.now ≤ length table.old }
    ensures { answer_of result ≡ accepts net.now }
{
    if let Some(i) = stored_header::first_word(net) {
        return Err(WrongWord(i as u32));
    }
    if stored_header::too_short(net) {
        return Err(WrongWord(net.len() as u32));
    }
    check_with(net, table)
}

// The same with a table of its own, of so many words; 196,608 serve for all.
pub fn check<const TABLE: usize>(net: &[u32]) -> Result<(), WrongWord>
    requires { (nets net.now ≤ 65535 → 3 * nets net.now ≤ TABLE) × (TABLE ≤ 196608) }
    ensures { answer_of result ≡ accepts net.now }
{
    let mut table = [0; TABLE];
    check_in(net, &mut table)
}

// Where the list words used end, as the header says it, also past the slice; the slice's length where the slice or that end is shorter
// than a header.
pub fn list_end(net: &[u32]) -> usize
    ensures { result ≡ list_end net.now }
{
    if net.len() < HEADER_LENGTH {
        return net.len();
    }
    let end = net[LIST_AT] as usize + net[LIST_USED] as usize;
    if end < HEADER_LENGTH {
        return net.len();
    }
    end
}

// The answer's three numbers.
pub fn numbers(answer: Result<(), WrongWord>) -> [u32; 3]
    ensures { result ≡ numbers_of (answer_of answer) }
{
    match answer {
        Ok(()) => [0, 0, 0],
        Err(WrongWord(p)) => [11, p, 0],
    }
}
