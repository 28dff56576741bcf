// Replays the calls of the oracle's list (oracle/replay/README.md) from standard input: each must be answered as listed, and the lowering
// call must leave both buffers as listed.
#![tactic(auto)]

ghost use Rattle.std.specs.Prelude.{◌≡◌, ◌≤◌, length};

use image_fields::word;

// What each lent word holds before a call.
const BEFORE: u32 = 2779096485;

// What is answered as listed.
#[derive(Clone, Copy)]
struct Agreed {
    checks: bool,
    lowering: bool,
}

// How many calls are answered as listed.
#[derive(Clone, Copy)]
struct Agreements {
    checks: u32,
    lowering: u32,
}

// 65,536 words, for a buffer.
fn word_buffer() -> [u32; 65536]
    ensures { 65536 ≡ length result }
{
    [0; 65536]
}

fn read_word() -> u32 {
    let mut bytes = [0; 4];
    io::read_full(0, &mut bytes);
    u32::from_le_bytes(bytes)
}

// Whether all words are equal to a value.
fn all_are(words: &[u32], value: u32) -> bool {
    words.iter().all(|word| *word == value)
}

// The FNV-1a checksum of some bytes and one byte more.
fn hash_byte(hash: u32, byte: u8) -> u32 {
    (hash ^ u32::from(byte)).wrapping_mul(16777619)
}

// The checksum of some bytes and a word's four, low byte first.
fn hash_word(hash: u32, word: u32) -> u32 {
    word.to_le_bytes()
        .iter()
        .fold(hash, |hash, byte| hash_byte(hash, *byte))
}

fn checksum(words: &[u32]) -> u32 {
    words
        .iter()
        .fold(2166136261, |hash, word| hash_word(hash, *word))
}

// The words of the scratch that an image that passes the checks needs: it has at most 4,096 bits of signals and 32,768 of expressions.
fn scratch_need(image: &[u8], n: u32) -> usize {
    let signals = check_header::signal_bits(image).min(4096);
    let exprs = check_header::expr_bits(image).min(32768);
    let count = u64::from(image_fields::count(image, image_fields::EXPRESSIONS));
    (4 * signals + exprs + 8 * count + 4 * u64::from(n) + 64) as usize
}

// The three numbers of an answer from a place on.
fn words_at(numbers: &[u8], at: usize) -> [u32; 3]
    requires { at ≤ 32 }
{
    [
        word(numbers, at),
        word(numbers, at + 4),
        word(numbers, at + 8),
    ]
}

// Whether the netlist's required words have the checksum and all others are as before.
fn netlist_agrees(netlist: &[u32], need: usize, hash: u32) -> bool {
    if netlist.len() < need {
        return false;
    }
    checksum(&netlist[..need]) == hash && all_are(&netlist[need..], BEFORE)
}

// Whether the scratch's required words are 0 and all others as before.
fn scratch_agrees(scratch: &[u32], need: usize) -> bool {
    if scratch.len() < need {
        return false;
    }
    all_are(&scratch[..need], 0) && all_are(&scratch[need..], BEFORE)
}

// Whether no word was written, and the list has no checksum: what a refusal by the checks leaves.
fn untouched(netlist: &[u32], scratch: &[u32], hash: u32) -> bool {
    hash == 0 && all_are(netlist, BEFORE) && all_are(scratch, BEFORE)
}

// Whether the buffers are left as an entry's numbers say.
fn buffers_agree(image: &[u8], numbers: &[u8], netlist: &[u32], scratch: &[u32]) -> bool {
    let n = word(numbers, 0);
    let p = word(numbers, 4);
    let hash = word(numbers, 40);
    if word(numbers, 16) != 0 {
        return untouched(netlist, scratch, hash);
    }
    let need = 16 + 6 * (n as usize) + (p as usize);
    netlist_agrees(netlist, need, hash) && scratch_agrees(scratch, scratch_need(image, n))
}

// Whether the lowering call with these buffers answers as an entry's numbers say, and leaves the buffers so.
fn lent_agrees(image: &[u8], numbers: &[u8], netlist: &mut [u32], scratch: &mut [u32]) -> bool {
    netlist.fill(BEFORE);
    scratch.fill(BEFORE);
    let mut answer = [BEFORE; 3];
    struo::struo_lower(
        image,
        word(numbers, 0),
        word(numbers, 4),
        netlist,
        scratch,
        &mut answer,
    );
    answer == words_at(numbers, 28) && buffers_agree(image, numbers, netlist, scratch)
}

// The same, with buffers of the sizes that the numbers state.
fn lower_agrees(image: &[u8], numbers: &[u8], netlist: &mut [u32], scratch: &mut [u32]) -> bool {
    let words = word(numbers, 8) as usize;
    let room = word(numbers, 12) as usize;
    if netlist.len() < words || scratch.len() < room {
        return false;
    }
    lent_agrees(image, numbers, &mut netlist[..words], &mut scratch[..room])
}

// Whether the checks answer as an entry's numbers say.
fn check_agrees(image: &[u8], numbers: &[u8]) -> bool {
    let mut answer = [BEFORE; 3];
    let netlist = word(numbers, 8) as usize;
    let scratch = word(numbers, 12) as usize;
    struo::struo_check(
        image,
        word(numbers, 0),
        word(numbers, 4),
        netlist,
        scratch,
        &mut answer,
    );
    answer == words_at(numbers, 16)
}

// Both calls of an entry: four numbers for the calls, three of the checks' answer, three of the lowering's, the checksum.
fn calls_agree(image: &[u8], numbers: &[u8], netlist: &mut [u32], scratch: &mut [u32]) -> Agreed {
    let checks = check_agrees(image, numbers);
    let lowering = lower_agrees(image, numbers, netlist, scratch);
    Agreed { checks, lowering }
}

// The next entry: the image's length, its bytes padded to a multiple of 4, eleven numbers. The image is read into lent bytes.
fn entry_agrees(image: &mut [u8], netlist: &mut [u32], scratch: &mut [u32]) -> Agreed {
    let bytes = read_word() as usize;
    let padded = bytes.next_multiple_of(4);
    if image.len() < padded {
        return Agreed {
            checks: false,
            lowering: false,
        };
    }
    io::read_full(0, &mut image[..padded]);
    let mut numbers = [0; 44];
    io::read_full(0, &mut numbers);
    calls_agree(&image[..bytes], &numbers, netlist, scratch)
}

// How many calls of the next n entries are answered as listed.
fn replay(n: u32, image: &mut [u8], netlist: &mut [u32], scratch: &mut [u32]) -> Agreements {
    let mut checks: u32 = 0;
    let mut lowering: u32 = 0;
    for _ in 0..n {
        let agreed = entry_agrees(image, netlist, scratch);
        checks += u32::from(agreed.checks);
        lowering += u32::from(agreed.lowering);
    }
    Agreements { checks, lowering }
}

// Printed through crate io, over read and write alone: std's printing rests on more of the C library.
fn print_part(same: u32, entries: u32) {
    io::print_decimal(1, u64::from(same));
    io::write_all(1, b" of ");
    io::print_decimal(1, u64::from(entries));
}

fn main() {
    let edition = read_word();
    let entries = read_word();
    let mut image = io::large_buffer();
    let mut netlist = word_buffer();
    let mut scratch = word_buffer();
    let same = replay(entries, &mut image, &mut netlist, &mut scratch);
    io::write_all(1, b"list of edition ");
    io::print_decimal(1, u64::from(edition));
    io::write_all(1, b", checks: ");
    print_part(same.checks, entries);
    io::write_all(1, b", lowering: ");
    print_part(same.lowering, entries);
    io::write_all(1, b" calls answered as listed\n");
}
