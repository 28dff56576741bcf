// The listing of an accepted image's netlist, or of a refusal, as text at the start of a lent buffer.
#![tactic(auto)]

ghost use Rattle.std.specs.Prelude.{ℕ, List};
ghost use Rattle.spec_tests.specs.Rules.{Fine, Refused};
ghost use Rattle.spec_rules.specs.Listing as text;
ghost use Rattle.listing_text.specs.Text.{Wrote};

// The text for an image that is accepted and the netlist words that it left; its length.
pub fn listing(image: &[u8], net: &[u32], out: &mut [u8]) -> usize
    ensures { Wrote out.old 0 (text.listing image.now Fine net.now) out.new result }
{
    let p = listing_nets::first_line(net, out, 0);
    let q = listing_nets::net_lines(image, net, out, p);
    listing_records::record_lines(image, net, out, q)
}

// The text for refusal n with its two places; its length.
pub fn refused(out: &mut [u8], n: u32, a: u32, b: u32) -> usize
    ensures { (s ws : List ℕ) → Wrote out.old 0 (text.listing s (Refused n a b) ws) out.new result }
{
    listing_text::put_refusal(out, 0, n, a, b)
}
