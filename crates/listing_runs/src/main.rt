// The listing program's stored runs: reads how many inputs there are, then of each its length and its bytes, and prints the listing of each.
// oracle/compare/src/bin/make-listings.rs makes what is read and what must be printed.
#![tactic(auto)]

ghost use Rattle.std.specs.Prelude.{◌≤◌, length};

fn read_word() -> u32 {
    let mut bytes = [0; 4];
    io::read_full(0, &mut bytes);
    u32::from_le_bytes(bytes)
}

// Reads the next input into a lent buffer, lists it in another, and prints that. Through crate io, over read and write alone: std's printing
// rests on more of the C library.
fn list_next(input: &mut [u8], out: &mut [u8])
    requires { 327680 ≤ length out.old }
{
    let bytes = read_word() as usize;
    if input.len() < bytes {
        return;
    }
    let image = &mut input[..bytes];
    io::read_full(0, image);
    let end = listing_input::program(image, out);
    io::write_all(1, &out[..end]);
}

fn list_all(n: u32, input: &mut [u8], out: &mut [u8])
    requires { 327680 ≤ length out.old }
{
    for _ in 0..n {
        list_next(input, out);
    }
}

fn main() {
    let inputs = read_word();
    let mut input = io::large_buffer();
    let mut out = listing_input::text_bytes();
    list_all(inputs, &mut input, &mut out);
}
