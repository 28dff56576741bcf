// The checks of the signal records: the first that breaks a rule.
#![tactic(auto)]

ghost use Rattle.std.specs.Prelude.{◌≡◌, ◌≤◌};
ghost use Rattle.spec_tests.specs.Rules.{sum_to};
ghost use Rattle.spec_tests.specs.Options.{first_of};
ghost use Rattle.spec_rules.specs.Image.{count_at_of, signal_width};
ghost use Rattle.spec_rules.specs.Checks.{bad_signal};
ghost use Rattle.check_signals.specs.Signals.{wrong_signal};

// Record r breaks a rule other than those of its name; sum is what the widths before it come to.
#[tactic(auto, using(spec_chains::proofs::Tests::chained), unfolding(crate::specs::Signals::wrong_signal))]
fn wrong_signal(image: &[u8], r: u32, sum: u32) -> bool
    requires { (sum ≡ sum_to (signal_width image.now) r) × (sum ≤ 4096) }
    ensures { result ≡ wrong_signal image.now r }
{
    let width = image_fields::signal_width(image, r);
    if image_fields::is_outside(width, 1, 1024) {
        return true;
    }
    2 < image_fields::record_field(image, image_fields::SIGNALS, r, 3) || 4096 < sum + width
}

// The first record that breaks a rule other than those of names.
fn first_wrong(image: &[u8]) -> Option<u32>
    ensures { result ≡ first_of (wrong_signal image.now) (count_at_of image.now 0) }
{
    let n = image_fields::count(image, image_fields::SIGNALS);
    let mut sum: u32 = 0;
    for r in 0..n {
        if wrong_signal(image, r, sum) {
            return Some(r);
        }
        sum += image_fields::signal_width(image, r);
    }
    None
}

// The first signal record that breaks a rule.
pub fn first_signal(image: &[u8]) -> Option<u32>
    requires { count_at_of image.now 0 ≤ 512 }
    ensures { result ≡ first_of (bad_signal image.now) (count_at_of image.now 0) }
{
    check_names::earlier(
        check_names::first_name(image, image_fields::SIGNALS),
        first_wrong(image),
    )
}
