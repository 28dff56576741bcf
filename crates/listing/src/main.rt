// The listing program: reads at most 32,768 bytes of a module image from standard input, and prints the listing of its netlist or the refusal.
#![tactic(auto)]

ghost use Rattle.std.specs.Prelude.{◌≡◌, ◌≤◌, length};

// As many bytes as are read.
fn input_bytes() -> [u8; 32768]
    ensures { 32768 ≡ length result }
{
    [0; 32768]
}

// Reads into a lent buffer, lists what was read in another, and prints that. Through crate io, over read and write alone: std's printing
// rests on more of the C library.
fn list(input: &mut [u8], out: &mut [u8])
    requires { 327680 ≤ length out.old }
{
    let read = io::read_full(0, input);
    let end = listing_input::program(&input[..read], out);
    io::write_all(1, &out[..end]);
}

fn main() {
    let mut input = input_bytes();
    let mut out = listing_input::text_bytes();
    list(&mut input, &mut out);
}
