// Netlists taken back in, stored runs: reads how many slices there are, then of each the number of its words and the words, low byte first,
// and prints the answer of each, three numbers. oracle/compare/src/bin/make-netlists.rs makes what is read and what must be printed.
#![tactic(auto)]

ghost use Rattle.std.specs.Prelude.{◌≡◌, length};

// What each word of an answer holds before a call.
const BEFORE: u32 = 2779096485;

// 8,192 words, for a slice.
fn word_buffer() -> [u32; 8192]
    ensures { 8192 ≡ length result }
{
    [0; 8192]
}

fn read_word() -> u32 {
    let mut bytes = [0; 4];
    io::read_full(0, &mut bytes);
    u32::from_le_bytes(bytes)
}

fn read_words(words: &mut [u32]) {
    for word in words.iter_mut() {
        *word = read_word();
    }
}

// Printed through crate io, over read and write alone: std's printing rests on more of the C library.
fn print_answer(answer: [u32; 3]) {
    let [number, first, second] = answer;
    io::print_decimal(1, u64::from(number));
    io::write_all(1, b" ");
    io::print_decimal(1, u64::from(first));
    io::write_all(1, b" ");
    io::print_decimal(1, u64::from(second));
    io::write_all(1, b"\n");
}

// Reads the next slice into a lent buffer, and prints its answer.
fn check_next(buffer: &mut [u32]) {
    let words = read_word() as usize;
    if buffer.len() < words {
        return;
    }
    let netlist = &mut buffer[..words];
    read_words(netlist);
    let mut answer = [BEFORE; 3];
    struo::struo_netlist_check(netlist, &mut answer);
    print_answer(answer);
}

fn check_all(n: u32, buffer: &mut [u32]) {
    for _ in 0..n {
        check_next(buffer);
    }
}

fn main() {
    let slices = read_word();
    let mut buffer = word_buffer();
    check_all(slices, &mut buffer);
}
