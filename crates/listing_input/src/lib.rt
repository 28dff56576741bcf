// What the listing program writes for an input, as text at the start of a lent buffer.
#![tactic(auto)]

ghost use Rattle.std.specs.Prelude.{◌≤◌, ◌≡◌, length, replicate};
ghost use Rattle.spec_call.specs.Call as call;
ghost use Rattle.listing_outcome.specs.Written.{Written};

// A buffer with room for the longest text.
pub fn text_bytes() -> [u8; 327680]
    ensures { 327680 ≡ length result }
{
    [0; 327680]
}

// The netlist buffer, for 1,024 nets and 2,048 list words.
fn netlist_words() -> [u32; 8208]
    ensures { result ≡ replicate 8208 0 }
{
    [0; 8208]
}

// The scratch.
fn scratch_words() -> [u32; 8192]
    ensures { result ≡ replicate 8192 0 }
{
    [0; 8192]
}

// The listing program's text for an input, of which the first 32,768 bytes are judged; its length.
pub fn program(input: &[u8], out: &mut [u8]) -> usize
    requires { 327680 ≤ length out.old }
    ensures { Written (call.program input.now) out.new result }
{
    let image = image_fields::stretch(input, 0, 32768);
    let mut netlist = netlist_words();
    let mut scratch = scratch_words();
    let answer = lower::lower(image, 1024, 2048, &mut netlist, &mut scratch);
    listing_outcome::outcome_text(answer, image, &netlist, out)
}
