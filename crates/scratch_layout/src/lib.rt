// Lays the scratch out for a walk over an image, and clears it.
#![tactic(auto)]

ghost use Rattle.std.specs.Prelude.{◌≡◌, ℕ, ◌+◌, ◌*◌, ◌≤◌, ◌<◌, length, get_or, replicate};
ghost use Rattle.std.proofs.Math.Seq.{paste};
ghost use Rattle.spec_tests.specs.Rules.{sum_to, list_of};
ghost use Rattle.spec_rules.specs.Image.{count_at_of, field, signal_width};
ghost use Rattle.spec_rules.specs.Checks.{signal_bits, scratch_need};
ghost use Rattle.scratch_view.specs.View.{limit_of, signal_column, first_at, driver_at, Sized};
ghost use Rattle.scratch_view.specs.Laws.{Stored};
ghost use Rattle.scratch_layout.specs.Stages.{HeadedAt, Fixed, FirstsAt, Starts, Indexed, Started};

// The fixed words, in a scratch that is 0 elsewhere.
fn lay_fixed(image: &[u8], n: u32, ob: bool, scr: &mut [u32])
    requires { (Sized image.now) × (n ≤ 65535) × (length scr.old ≡ scratch_need image.now n) × (scr.old ≡ replicate (length scr.old) 0) }
    ensures { Fixed image.now n ob scr.new }
{
    let bits = check_header::signal_bits(image) as u32;
    let exprs = 64 + 4 * n + 4 * bits;
    let nets = exprs + 8 * image_fields::count(image, image_fields::EXPRESSIONS);
    scr[scratch_view::LIMIT] = n;
    scr[scratch_view::SIGNAL_BITS] = bits;
    scr[scratch_view::ROWS] = exprs;
    scr[scratch_view::NETS] = nets;
    if ob {
        scr[scratch_view::OBSERVABLE] = 1;
    }
}

// The first bit of each signal.
fn lay_firsts(image: &[u8], scr: &mut [u32])
    requires { HeadedAt image.now (limit_of scr.old) scr.old }
    ensures { Stored (first_at image.now (limit_of scr.old) 0) (count_at_of image.now 0) (sum_to (signal_width image.now)) scr.old scr.new }
{
    let count = image_fields::count(image, image_fields::SIGNALS);
    let at = scratch_view::FIXED
        + 4 * (scr[scratch_view::LIMIT] as usize)
        + 3 * (scr[scratch_view::SIGNAL_BITS] as usize);
    check_drivers::lay_firsts(image, &mut scr[at..at + count as usize]);
}

// The first bit of each expression.
fn lay_starts(image: &[u8], scr: &mut [u32])
    requires { HeadedAt image.now (limit_of scr.old) scr.old }
    ensures { Starts image.now (limit_of scr.old) scr.old scr.new }
{
    let count = image_fields::count(image, image_fields::EXPRESSIONS);
    let at = scr[scratch_view::ROWS] as usize;
    let mut sum = 0;
    for e in 0..count {
        scr[at + scratch_view::ROW * (e as usize)] = sum;
        sum += image_fields::expr_width(image, e);
    }
}

// The drivers of n bits: bits of one expression from bit 0 on.
fn put_drivers(scr: &mut [u32], at: usize, n: u32, base: u32)
    requires { (at + n ≤ length scr.old) × (base + n < 4294967296) }
    ensures { scr.new ≡ paste scr.old at (list_of n (λ i. base + i)) n }
{
    for i in 0..n {
        scr[at + i as usize] = base + i;
    }
}

// The bits that assignment a drives.
fn index_assignment(image: &[u8], scr: &mut [u32], a: u32)
    requires { (FirstsAt image.now (limit_of scr.old) scr.old) × (a < count_at_of image.now 3) }
    ensures { Stored (driver_at image.now (limit_of scr.old) (field image.now 3 a 0) (field image.now 3 a 1)) (field image.now 3 a 2) (λ i. (field image.now 3 a 3 + 1) * 1024 + i) scr.old scr.new }
{
    let p = image_fields::record_field(image, image_fields::ASSIGNMENTS, a, 0);
    let lsb = image_fields::record_field(image, image_fields::ASSIGNMENTS, a, 1);
    let n = image_fields::record_field(image, image_fields::ASSIGNMENTS, a, 2);
    let e = image_fields::record_field(image, image_fields::ASSIGNMENTS, a, 3);
    let column = scratch_view::FIXED + 4 * (scr[scratch_view::LIMIT] as usize);
    let bits = scr[scratch_view::SIGNAL_BITS] as usize;
    let first = scr[column + 3 * bits + p as usize] as usize;
    put_drivers(
        scr,
        column + bits + (first + lsb as usize),
        n,
        (e + 1) * 1024,
    );
}

// The drivers of all signal bits; of two assignments to a bit the first would drive it.
fn index_assignments(image: &[u8], scr: &mut [u32])
    requires { (FirstsAt image.now (limit_of scr.old) scr.old) × ((i : ℕ) → i < signal_bits image.now → get_or scr.old (signal_column (limit_of scr.old) + signal_bits image.now + i) 0 ≡ 0) }
    ensures { Indexed image.now (limit_of scr.old) scr.old scr.new }
{
    let count = image_fields::count(image, image_fields::ASSIGNMENTS);
    for a in (0..count).rev() {
        index_assignment(image, scr, a);
    }
}

// Lays a scratch of exactly the needed words out for a walk with net limit n.
pub fn lay(image: &[u8], n: u32, ob: bool, scr: &mut [u32])
    requires { (Sized image.now) × (n ≤ 65535) × (length scr.old ≡ scratch_need image.now n) }
    ensures { Started image.now n ob scr.new }
{
    net_nodes::clear(scr);
    lay_fixed(image, n, ob, scr);
    lay_firsts(image, scr);
    lay_starts(image, scr);
    index_assignments(image, scr);
}
