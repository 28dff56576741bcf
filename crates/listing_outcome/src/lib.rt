// The text of the listing for an answer of the lowering call, at the start of a lent buffer.
#![tactic(auto)]

ghost use Rattle.std.specs.Prelude.{ℕ, ◌≤◌, List, length};
ghost use Rattle.spec_tests.specs.Rules.{Fine, Refused};
ghost use Rattle.spec_rules.specs.Listing as text;
ghost use Rattle.lower_outcome.specs.Answer.{answer_of, refusal_of};
ghost use Rattle.listing_outcome.specs.Written.{Written, Room};

use lower_outcome::Refusal;

// The text for an accepted image and its netlist words; its length.
fn accepted_text(image: &[u8], netlist: &[u32], out: &mut [u8]) -> usize
    requires { Room image.now Fine netlist.now out.old }
    ensures { Written (text.listing image.now Fine netlist.now) out.new result }
{
    listing_whole::listing(image, netlist, out)
}

// The text for refusal n with its two places; its length.
fn refused_text(out: &mut [u8], n: u32, a: u32, b: u32) -> usize
    requires { 327680 ≤ length out.old }
    ensures { (s ws : List ℕ) → Written (text.listing s (Refused n a b) ws) out.new result }
{
    listing_whole::refused(out, n, a, b)
}

// The text for a refusal; its length.
fn refusal_text(out: &mut [u8], refusal: Refusal) -> usize
    requires { 327680 ≤ length out.old }
    ensures { (s ws : List ℕ) → Written (text.listing s (refusal_of refusal) ws) out.new result }
{
    match refusal {
        Refusal::Limits => refused_text(out, 1, 0, 0),
        Refusal::NetlistShort => refused_text(out, 2, 0, 0),
        Refusal::Field(f) => refused_text(out, 3, f, 0),
        Refusal::Record(k, r) => refused_text(out, 4, k, r),
        Refusal::ScratchShort => refused_text(out, 5, 0, 0),
        Refusal::Undriven(p, b) => refused_text(out, 6, p, b),
        Refusal::Loop(p, b) => refused_text(out, 7, p, b),
        Refusal::Reset(r, b) => refused_text(out, 8, r, b),
        Refusal::TooManyNets => refused_text(out, 9, 0, 0),
        Refusal::ListFull => refused_text(out, 10, 0, 0),
    }
}

// The text for an answer of the lowering call and the netlist words that it left; its length.
pub fn outcome_text(
    answer: Result<(), Refusal>,
    image: &[u8],
    netlist: &[u32],
    out: &mut [u8],
) -> usize
    requires { Room image.now (answer_of answer) netlist.now out.old }
    ensures { Written (text.listing image.now (answer_of answer) netlist.now) out.new result }
{
    match answer {
        Ok(()) => accepted_text(image, netlist, out),
        Err(refusal) => refusal_text(out, refusal),
    }
}
