// The rules that several sorts of record share: references to signals and expressions, 1-bit signals, controls. For all bytes.
#![tactic(auto)]

ghost use Rattle.std.specs.Prelude.{◌≡◌, ◌+◌, ◌≤◌};
ghost use Rattle.spec_tests.specs.Rules.{◌<?◌};
ghost use Rattle.spec_rules.specs.Checks.{no_signal, no_expr, bad_bit, bad_control, not_zero, bad_optional, bad_value};

use image_numbers::ABSENT;

// x is below a + b.
pub fn below_sum(x: u32, a: u32, b: u32) -> bool
    ensures { result ≡ (x <? a + b) }
{
    (x as u64) < (a as u64) + (b as u64)
}

// There is no signal p.
pub fn no_signal(image: &[u8], p: u32) -> bool
    ensures { result ≡ no_signal image.now p }
{
    image_fields::count(image, image_fields::SIGNALS) <= p
}

// There is no expression e.
pub fn no_expr(image: &[u8], e: u32) -> bool
    ensures { result ≡ no_expr image.now e }
{
    image_fields::count(image, image_fields::EXPRESSIONS) <= e
}

// Signal p is not there or not 1 wide.
#[tactic(auto, using(spec_chains::proofs::Tests::chained), unfolding(spec_rules::specs::Checks::bad_bit))]
pub fn bad_bit(image: &[u8], p: u32) -> bool
    ensures { result ≡ bad_bit image.now p }
{
    no_signal(image, p) || image_fields::signal_width(image, p) != 1
}

// Expression e is not there or not w wide.
#[tactic(auto, using(spec_chains::proofs::Tests::chained), unfolding(spec_rules::specs::Checks::bad_value))]
pub fn bad_value(image: &[u8], e: u32, w: u32) -> bool
    ensures { result ≡ bad_value image.now e w }
{
    no_expr(image, e) || image_fields::expr_width(image, e) != w
}

// Fields f and f + 1 of record r of section k are no control.
#[tactic(auto, using(spec_chains::proofs::Tests::chained), unfolding(spec_rules::specs::Checks::bad_control))]
pub fn bad_control(image: &[u8], k: u32, r: u32, f: u32) -> bool
    requires { f ≤ 32 }
    ensures { result ≡ bad_control image.now k r f }
{
    bad_bit(image, image_fields::record_field(image, k, r, f))
        || 1 < image_fields::record_field(image, k, r, f + 1)
}

// One of the n fields from f on is not 0.
pub fn not_zero(image: &[u8], k: u32, r: u32, f: u32, n: u32) -> bool
    requires { f + n ≤ 64 }
    ensures { result ≡ not_zero image.now k r f n }
{
    (0..n).any(|i| image_fields::record_field(image, k, r, f + i) != 0)
}

// The same where the control may be absent.
#[tactic(auto, using(spec_chains::proofs::Tests::chained), unfolding(spec_rules::specs::Checks::bad_optional))]
pub fn bad_optional(image: &[u8], k: u32, r: u32, f: u32) -> bool
    requires { f ≤ 32 }
    ensures { result ≡ bad_optional image.now k r f }
{
    if image_fields::record_field(image, k, r, f) == ABSENT {
        return not_zero(image, k, r, f + 1, 1);
    }
    bad_control(image, k, r, f)
}
