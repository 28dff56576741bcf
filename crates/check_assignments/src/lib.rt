// The rules of the assignment records, and the first record that breaks one. For all bytes whose signals keep their rules; the bits that
// the assignments drive are marked.
#![tactic(auto)]

ghost use Rattle.std.specs.Prelude.{false, None, ◌≡◌, ℕ, ◌+◌, ◌≤◌, length};
ghost use Rattle.spec_tests.specs.Options.{first_of};
ghost use Rattle.spec_rules.specs.Image.{count_at_of};
ghost use Rattle.spec_rules.specs.Checks.{signal_bits, bad_assign};
ghost use Rattle.check_drivers.specs.Bits.{Marks};
ghost use Rattle.check_assignments.specs.Assign.{bad_assign_of};

use check_drivers::Signals;

// An assignment of w bits of signal p from at on by expression e breaks a rule; the bits that the assignments before it drive are marked.
#[tactic(auto, using(spec_chains::proofs::Tests::chained), unfolding(crate::specs::Assign::bad_assign_of))]
fn bad_assign_of(signals: Signals, taken: &[u8], p: u32, at: u32, w: u32, e: u32) -> bool
    requires { signal_bits signals.image.now ≤ length taken.now }
    ensures { let s = signals.entry.image.now in (r : ℕ) → Marks s r 0 0 taken.now → result ≡ bad_assign_of s r p at w e }
{
    let image = signals.image;
    if check_references::no_signal(image, p) {
        return true;
    }
    if image_fields::is_outside(w, 1, 1024) {
        return true;
    }
    if check_references::below_sum(image_fields::signal_width(image, p), at, w) {
        return true;
    }
    check_references::no_expr(image, e)
        || image_fields::expr_width(image, e) != w
        || check_drivers::is_input(image, p)
        || signals.is_assigned(taken, p, at, w)
}

// Assignment record r breaks a rule; the bits of one that breaks none are marked.
fn check_assign(signals: Signals, taken: &mut [u8], r: u32) -> bool
    requires { Marks signals.image.now r 0 0 taken.old }
    ensures { let s = signals.entry.image.now in (result ≡ bad_assign s r) × (result ≡ false → Marks s (r + 1) 0 0 taken.new) }
{
    let image = signals.image;
    let p = image_fields::record_field(image, image_fields::ASSIGNMENTS, r, 0);
    let at = image_fields::record_field(image, image_fields::ASSIGNMENTS, r, 1);
    let w = image_fields::record_field(image, image_fields::ASSIGNMENTS, r, 2);
    let e = image_fields::record_field(image, image_fields::ASSIGNMENTS, r, 3);
    if bad_assign_of(signals, taken, p, at, w, e) {
        return true;
    }
    signals.mark_bits(taken, p, at, w);
    false
}

// The first assignment record that breaks a rule; where none does, the bits of all are marked.
pub fn first_assign(signals: Signals, taken: &mut [u8]) -> Option<u32>
    requires { Marks signals.image.now 0 0 0 taken.old }
    ensures { let s = signals.entry.image.now in (result ≡ first_of (bad_assign s) (count_at_of s 3)) × (result ≡ None → Marks s (count_at_of s 3) 0 0 taken.new) }
{
    let n = image_fields::count(signals.image, image_fields::ASSIGNMENTS);
    for r in 0..n {
        if check_assign(signals, taken, r) {
            return Some(r);
        }
    }
    None
}
