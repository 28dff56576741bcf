// Text into a lent buffer. What has no room is cut, so a caller shows only that its place is in the buffer.
#![tactic(auto)]

ghost use Rattle.std.specs.Prelude.{◌≤◌, [], ◌∷◌, length};
ghost use Rattle.spec_rules.specs.Listing as listing;
ghost use Rattle.listing_text.specs.Text.{Wrote, refusal_text};

// One byte at a place; the next place.
pub fn put_byte(out: &mut [u8], at: usize, b: u8) -> usize
    requires { at ≤ length out.old }
    ensures { Wrote out.old at (b ∷ []) out.new result }
{
    if at < out.len() {
        out[at] = b;
        at + 1
    } else {
        at
    }
}

// A list at a place, as much of it as has room; the next place.
pub fn put<T: Copy>(out: &mut [T], at: usize, list: &[T]) -> usize
    requires { at ≤ length out.old }
    ensures { Wrote out.old at list.now out.new result }
{
    let n = list.len().min(out.len() - at);
    out[at..at + n].copy_from_slice(&list[..n]);
    at + n
}

// A number in decimal at a place; the next place. Digit by digit: must-fail/digits_reversed.edit is about the last of them.
pub fn decimal(out: &mut [u8], at: usize, n: u32) -> usize
    requires { at ≤ length out.old }
    ensures { Wrote out.old at (listing.decimal n) out.new result }
{
    if n < 10 {
        return put_byte(out, at, 48 + n as u8);
    }
    let to = decimal(out, at, n / 10);
    put_byte(out, to, 48 + (n % 10) as u8)
}

// A space and a text at a place; the next place.
pub fn put_word(out: &mut [u8], at: usize, text: &[u8]) -> usize
    requires { at ≤ length out.old }
    ensures { Wrote out.old at (32 ∷ text.now) out.new result }
{
    let to = put_byte(out, at, 32);
    put(out, to, text)
}

// A space and a number in decimal at a place; the next place.
pub fn put_number(out: &mut [u8], at: usize, n: u32) -> usize
    requires { at ≤ length out.old }
    ensures { Wrote out.old at (32 ∷ listing.decimal n) out.new result }
{
    let to = put_byte(out, at, 32);
    decimal(out, to, n)
}

// A refusal with its number and its two places, as a line; the next place.
pub fn put_refusal(out: &mut [u8], at: usize, n: u32, a: u32, b: u32) -> usize
    requires { at ≤ length out.old }
    ensures { Wrote out.old at (refusal_text n a b) out.new result }
{
    let p = put(out, at, b"refused");
    let q = put_number(out, p, n);
    let r = put_number(out, q, a);
    let t = put_number(out, r, b);
    put_byte(out, t, 10)
}
