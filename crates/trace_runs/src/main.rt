// The trace program's text, stored runs: reads how many inputs there are, then of each its length and its bytes, and prints the text of each
// and a line "--". oracle/compare/src/bin/make-traces.rs makes what is read and what must be printed.
#![tactic(auto)]

ghost use Rattle.std.specs.Prelude.{◌≡◌, length};

// 131,072 bytes, for an input or a text.
fn byte_buffer() -> [u8; 131072]
    ensures { 131072 ≡ length result }
{
    [0; 131072]
}

fn read_word() -> u32 {
    let mut bytes = [0u8; 4];
    io::read_full(0, &mut bytes);
    image_fields::word(&bytes, 0)
}

// Reads the next input into a lent buffer, makes its text in another, and prints that.
fn trace_next(input: &mut [u8], out: &mut [u8]) {
    let bytes = read_word() as usize;
    if input.len() < bytes {
        return;
    }
    io::read_full(0, &mut input[..bytes]);
    let end = trace_text::text(image_fields::stretch(input, 0, bytes), out);
    io::write_all(1, image_fields::stretch(out, 0, end));
    io::write_all(1, b"--\n");
}

fn trace_all(n: u32, input: &mut [u8], out: &mut [u8]) {
    for _ in 0..n {
        trace_next(input, out);
    }
}

fn main() {
    let inputs = read_word();
    let mut input = byte_buffer();
    let mut out = byte_buffer();
    trace_all(inputs, &mut input, &mut out);
}
