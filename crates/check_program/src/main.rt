// Reads an image from standard input and judges it by refusals 1 to 5, with the listing program's limits: 1,024 nets, 2,048 list words
// and 8,192 words of scratch. Only the first 32,768 bytes are judged.
#![tactic(auto)]

// Printed through crate io, over read and write alone: std's printing rests on more of the C library.
fn print_answer(answer: [u32; 3]) {
    let [refusal, first, second] = answer;
    if refusal == 0 {
        io::write_all(1, b"checks 1 to 5 pass\n");
        return;
    }
    io::write_all(1, b"refused ");
    io::print_decimal(1, u64::from(refusal));
    io::write_all(1, b" ");
    io::print_decimal(1, u64::from(first));
    io::write_all(1, b" ");
    io::print_decimal(1, u64::from(second));
    io::write_all(1, b"\n");
}

// Judges what is read into a lent buffer.
fn judge(space: &mut [u8]) {
    let read = io::read_full(0, space);
    let mut answer = [0; 3];
    struo::struo_check(
        &space[..read.min(32768)],
        1024,
        2048,
        8208,
        8192,
        &mut answer,
    );
    print_answer(answer);
}

fn main() {
    let mut space = io::large_buffer();
    judge(&mut space);
}
