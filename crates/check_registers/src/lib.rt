// The rules of the register records, and the first record that breaks one. For all bytes whose signals keep their rules, where there are at
// most 256 registers; the bits that the assignments drive are marked, and then those of the targets.
#![tactic(auto)]

ghost use Rattle.std.specs.Prelude.{false, None, ◌≡◌, ◌+◌, ◌≤◌};
ghost use Rattle.spec_tests.specs.Options.{first_of};
ghost use Rattle.spec_rules.specs.Image.{count_at_of};
ghost use Rattle.spec_rules.specs.Checks.{bad_reset, bad_register};
ghost use Rattle.check_drivers.specs.Bits.{Marks};
ghost use Rattle.check_registers.specs.Register.{bad_rest, bad_rest_of};

use check_drivers::Signals;

// The reset of register r, whose target is w wide.
#[tactic(auto, using(spec_chains::proofs::Tests::chained), unfolding(spec_rules::specs::Checks::bad_reset))]
fn bad_reset(image: &[u8], r: u32, w: u32) -> bool
    ensures { result ≡ bad_reset image.now r w }
{
    if image_fields::record_field(image, image_fields::REGISTERS, r, 8) == image_numbers::ABSENT {
        return check_references::not_zero(image, image_fields::REGISTERS, r, 9, 3);
    }
    check_references::bad_control(image, image_fields::REGISTERS, r, 8)
        || 1 < image_fields::record_field(image, image_fields::REGISTERS, r, 10)
        || check_references::bad_value(
            image,
            image_fields::record_field(image, image_fields::REGISTERS, r, 11),
            w,
        )
}

// Register r, whose target is signal p, but for its name; the bits that the assignments and the registers before it drive are marked.
#[tactic(auto, using(spec_chains::proofs::Tests::chained), unfolding(crate::specs::Register::bad_rest_of))]
fn bad_rest_of(signals: Signals, taken: &[u8], r: u32, p: u32) -> bool
    requires { let s = signals.image.now in Marks s (count_at_of s 3) r 0 taken.now }
    ensures { result ≡ bad_rest_of signals.entry.image.now r p }
{
    let image = signals.image;
    if check_references::no_signal(image, p) {
        return true;
    }
    let w = image_fields::signal_width(image, p);
    check_references::bad_value(
        image,
        image_fields::record_field(image, image_fields::REGISTERS, r, 3),
        w,
    ) || check_references::bad_bit(
        image,
        image_fields::record_field(image, image_fields::REGISTERS, r, 4),
    ) || 1 < image_fields::record_field(image, image_fields::REGISTERS, r, 5)
        || check_references::bad_optional(image, image_fields::REGISTERS, r, 6)
        || bad_reset(image, r, w)
        || signals.is_driven(taken, p)
}

// Register r breaks another rule than that of names; the bits of the target of one that breaks none are marked.
fn check_rest(signals: Signals, taken: &mut [u8], r: u32) -> bool
    requires { let s = signals.image.now in Marks s (count_at_of s 3) r 0 taken.old }
    ensures { let s = signals.entry.image.now in (result ≡ bad_rest s r) × (result ≡ false → Marks s (count_at_of s 3) (r + 1) 0 taken.new) }
{
    let p = image_fields::record_field(signals.image, image_fields::REGISTERS, r, 2);
    if bad_rest_of(signals, taken, r, p) {
        return true;
    }
    signals.mark_signal(taken, p);
    false
}

// The first register that breaks another rule than that of names; where none does, the bits of all targets are marked.
fn first_rest(signals: Signals, taken: &mut [u8]) -> Option<u32>
    requires { let s = signals.image.now in Marks s (count_at_of s 3) 0 0 taken.old }
    ensures { let s = signals.entry.image.now in (result ≡ first_of (bad_rest s) (count_at_of s 4)) × (result ≡ None → Marks s (count_at_of s 3) (count_at_of s 4) 0 taken.new) }
{
    let n = image_fields::count(signals.image, image_fields::REGISTERS);
    for r in 0..n {
        if check_rest(signals, taken, r) {
            return Some(r);
        }
    }
    None
}

// The first register record that breaks a rule; where none does, the bits of all targets are marked.
pub fn first_register(signals: Signals, taken: &mut [u8]) -> Option<u32>
    requires { let s = signals.image.now in (count_at_of s 4 ≤ 256) × (Marks s (count_at_of s 3) 0 0 taken.old) }
    ensures { let s = signals.entry.image.now in (result ≡ first_of (bad_register s) (count_at_of s 4)) × (result ≡ None → Marks s (count_at_of s 3) (count_at_of s 4) 0 taken.new) }
{
    check_names::earlier(
        check_names::first_name(signals.image, image_fields::REGISTERS),
        first_rest(signals, taken),
    )
}
