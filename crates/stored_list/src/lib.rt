// The list's records in turn: each is judged, its own nets are marked, and it is counted.
#![tactic(auto)]

ghost use Rattle.std.specs.Prelude.{◌≡◌, List, ℕ, ◌≤◌, ◌<◌, length, get_or, IsNone, IfSome};
ghost use Rattle.spec_tests.specs.Options.{first_of};
ghost use Rattle.spec_rules.specs.NetlistImage.{record_length, records_of};
ghost use Rattle.spec_netlist.specs.Accept.{nets, used, wrong_word, list_answer};
ghost use Rattle.stored_view.specs.Opened.{Opened, Marked, Counted};
ghost use Rattle.stored_list.specs.Walking.{told_at};

use image_numbers::*;

// The first wrong word of the record that l begins with. counts: the records before it, by sort.
fn first_in_record(net: &[u32], marks: &[u16], l: &[u32], counts: &[u32; 5]) -> Option<usize>
    requires { (Opened net.now) × (nets net.now ≤ length marks.now) × (0 < length l.now) × (length l.now ≤ 65535) }
    ensures { (earlier : List (List ℕ)) → Marked net.now earlier marks.now → Counted earlier counts.now → result ≡ first_of (wrong_word net.now earlier l.now) (record_length l.now) }
{
    if !stored_marks::fits(l) {
        return Some(0);
    }
    match l[0] {
        PORT_RECORD => stored_records::first_in_port(net, marks, l),
        REGISTER_RECORD => stored_records::first_in_register(net, marks, l),
        MEMORY_RECORD => stored_memories::first_in_memory(net, marks, l),
        ARITHMETIC_RECORD => stored_records::first_in_arithmetic(net, marks, l, counts[3]),
        _ => stored_records::first_in_comparison(net, marks, l, counts[4]),
    }
}

// The first wrong word of the list, counted from its start. Where there is none, marks and counts are those of all records.
pub fn first_word(net: &[u32], marks: &mut [u16], counts: &mut [u32; 5]) -> Option<usize>
    requires { (Opened net.now) × (nets net.now ≤ length marks.old) × ((t : ℕ) → get_or counts.old t 0 ≡ 0) }
    ensures { (list_answer net.now ≡ told_at net.now result) × (IsNone result → (Marked net.now (records_of net.now) marks.new) × (Counted (records_of net.now) counts.new)) × IfSome result (λ i. i < used net.now) }
{
    marks[..net[NET_COUNT] as usize].fill(0);
    let end = net[LIST_USED] as usize;
    let mut p: usize = 0;
    // The step is by the record that was read.
    while p < end {
        let l = net_words::stretch(net, net[LIST_AT] as usize + p, end - p);
        if let Some(i) = first_in_record(net, marks, l, counts) {
            return Some(p + i);
        }
        let length = net_words::record_length(l);
        stored_marks::keep(marks, counts, net_words::stretch(l, 0, length));
        p += length;
    }
    None
}
