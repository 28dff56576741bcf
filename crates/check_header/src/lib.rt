// The check of the header, refusal 3, and of the caller's limits and buffers, refusals 1, 2 and 5.
#![tactic(auto)]

ghost use Rattle.std.specs.Prelude.{◌≡◌, ◌≤◌, ◌<◌};
ghost use Rattle.spec_tests.specs.Rules.{◌<?◌, ◌or◌, outside, sum_to};
ghost use Rattle.spec_rules.specs.Image.{most_of, count_at_of, start_of};
ghost use Rattle.spec_rules.specs.Checks.{wrong_count, wrong_field, netlist_need, scratch_need, signal_bits, expr_bits};
ghost use Rattle.check_header.specs.Header.{field_of, field_found};

const MOSTS: [u32; 7] = [512, 2048, 8192, 1024, 256, 16, 16384];

// The most records of section k.
fn most(k: u32) -> u32
    requires { k < 7 }
    ensures { result ≡ most_of k }
{
    MOSTS[k as usize]
}

// Where section k has to start: after the header and the sections before it.
pub fn start(image: &[u8], k: u32) -> u64
    requires { k ≤ 7 }
    ensures { result ≡ start_of image.now k }
{
    let mut at: u64 = 64;
    for j in 0..k {
        at += (image_fields::count(image, j) as u64) * (image_fields::size(j) as u64);
    }
    at
}

#[tactic(auto, using(spec_chains::proofs::Tests::chained), unfolding(spec_rules::specs::Checks::wrong_count))]
fn wrong_count(image: &[u8], k: u32) -> bool
    requires { k < 7 }
    ensures { result ≡ wrong_count image.now k }
{
    if most(k) < image_fields::count(image, k) {
        return true;
    }
    if k == 6 {
        return start(image, 7) != (image.len() as u64);
    }
    false
}

// Header field i is wrong.
#[tactic(auto, using(spec_chains::proofs::Tests::chained), unfolding(spec_rules::specs::Checks::wrong_field))]
fn wrong_field(image: &[u8], i: u32) -> bool
    requires { i < 16 }
    ensures { result ≡ wrong_field image.now i }
{
    if i == 0 {
        return image_fields::word(image, 0) != 2;
    }
    if i == 1 {
        return (image_fields::word(image, 4) as usize) != image.len();
    }
    if i % 2 == 0 {
        return wrong_count(image, (i - 2) / 2);
    }
    (image_fields::offset(image, (i - 2) / 2) as u64) != start(image, (i - 2) / 2)
}

// The first wrong header field.
pub fn first_field(image: &[u8]) -> Option<u32>
    ensures { result ≡ field_found image.now }
{
    if image.len() < 64 {
        return Some(0);
    }
    (0..16).find(|i| wrong_field(image, *i))
}

// The caller's limits are outside what is allowed.
#[tactic(auto, using(spec_chains::proofs::Tests::chained))]
pub fn bad_limits(n: u32, p: u32) -> bool
    ensures { result ≡ (outside n 1 65535 or outside p 0 65535) }
{
    image_fields::is_outside(n, 1, 65535) || image_fields::is_outside(p, 0, 65535)
}

// The netlist buffer of this many words is too small for limits n and p.
#[tactic(auto, using(spec_chains::proofs::Tests::chained), unfolding(spec_rules::specs::Checks::netlist_need))]
pub fn netlist_short(n: u32, p: u32, words: usize) -> bool
    ensures { result ≡ (words <? netlist_need n p) }
{
    words < 16 + 6 * (n as usize) + (p as usize)
}

// The sum of field f over the records of section k.
fn field_sum(image: &[u8], k: u32, f: u32) -> u64
    ensures { result ≡ sum_to (field_of image.now k f) (count_at_of image.now k) }
{
    let n = image_fields::count(image, k);
    let mut sum: u64 = 0;
    for r in 0..n {
        sum += image_fields::record_field(image, k, r, f) as u64;
    }
    sum
}

// The bits of all signals.
pub fn signal_bits(image: &[u8]) -> u64
    ensures { result ≡ signal_bits image.now }
{
    field_sum(image, image_fields::SIGNALS, 2)
}

// The bits of all expressions.
pub fn expr_bits(image: &[u8]) -> u64
    ensures { result ≡ expr_bits image.now }
{
    field_sum(image, image_fields::EXPRESSIONS, 1)
}

// The scratch of this many words is too small for the image and limit n.
#[tactic(auto, using(spec_chains::proofs::Tests::chained), unfolding(spec_rules::specs::Checks::scratch_need))]
pub fn scratch_short(image: &[u8], n: u32, words: usize) -> bool
    requires { (signal_bits image.now ≤ 4096) × (expr_bits image.now ≤ 32768) }
    ensures { result ≡ (words <? scratch_need image.now n) }
{
    let bits = 4 * signal_bits(image) + expr_bits(image);
    (words as u64)
        < bits
            + 8 * (image_fields::count(image, image_fields::EXPRESSIONS) as u64)
            + 4 * (n as u64)
            + 64
}
