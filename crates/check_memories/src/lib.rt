// The rules of the memory records, and the first record that breaks one. For all bytes whose signals keep their rules, where there are at most
// 16 memories; the bits that assignments and registers drive are marked.
#![tactic(auto)]

ghost use Rattle.std.specs.Prelude.{false, ◌≡◌, ◌+◌, ◌≤◌};
ghost use Rattle.spec_tests.specs.Options.{first_of};
ghost use Rattle.spec_rules.specs.Image.{count_at_of};
ghost use Rattle.spec_rules.specs.Checks.{bad_address, bad_port, bad_second, bad_memory};
ghost use Rattle.check_drivers.specs.Bits.{Marks};
ghost use Rattle.check_memories.specs.Memory.{bad_read, bad_write, bad_shape, bad_rest};

use check_drivers::Signals;

// Expression e is not there or no address.
#[tactic(auto, using(spec_chains::proofs::Tests::chained), unfolding(spec_rules::specs::Checks::bad_address))]
fn bad_address(image: &[u8], e: u32) -> bool
    ensures { result ≡ bad_address image.now e }
{
    check_references::no_expr(image, e)
        || image_fields::is_outside(image_fields::expr_width(image, e), 1, 32)
}

// What the port of memory r whose fields begin at f reads, into signal p of width w.
#[tactic(auto, using(spec_chains::proofs::Tests::chained), unfolding(crate::specs::Memory::bad_read))]
fn bad_read(image: &[u8], r: u32, f: u32, w: u32, p: u32) -> bool
    requires { f ≤ 17 }
    ensures { result ≡ bad_read image.now r f w p }
{
    bad_address(
        image,
        image_fields::record_field(image, image_fields::MEMORIES, r, f),
    ) || check_references::no_signal(image, p)
        || image_fields::signal_width(image, p) != w
        || check_references::bad_optional(image, image_fields::MEMORIES, r, f + 2)
}

// What that port writes, and its clock.
#[tactic(auto, using(spec_chains::proofs::Tests::chained), unfolding(crate::specs::Memory::bad_write))]
fn bad_write(image: &[u8], r: u32, f: u32, w: u32) -> bool
    requires { f ≤ 17 }
    ensures { result ≡ bad_write image.now r f w }
{
    bad_address(
        image,
        image_fields::record_field(image, image_fields::MEMORIES, r, f + 4),
    ) || check_references::bad_value(
        image,
        image_fields::record_field(image, image_fields::MEMORIES, r, f + 5),
        w,
    ) || check_references::bad_control(image, image_fields::MEMORIES, r, f + 6)
        || check_references::bad_bit(
            image,
            image_fields::record_field(image, image_fields::MEMORIES, r, f + 8),
        )
        || 1 < image_fields::record_field(image, image_fields::MEMORIES, r, f + 9)
}

// The port of memory r whose fields begin at f; the bits that the assignments, the registers and the memories before it drive are marked.
fn bad_port(signals: Signals, taken: &[u8], r: u32, f: u32, w: u32) -> bool
    requires { let s = signals.image.now in (Marks s (count_at_of s 3) (count_at_of s 4) r taken.now) × (f ≤ 17) }
    ensures { result ≡ bad_port signals.entry.image.now r f w }
{
    let image = signals.image;
    let p = image_fields::record_field(image, image_fields::MEMORIES, r, f + 1);
    if bad_read(image, r, f, w, p) {
        return true;
    }
    if bad_write(image, r, f, w) {
        return true;
    }
    signals.is_driven(taken, p)
}

// The second port of memory r, where k says whether it is there.
#[tactic(auto, using(spec_chains::proofs::Tests::chained), unfolding(spec_rules::specs::Checks::bad_second))]
fn bad_second(signals: Signals, taken: &[u8], r: u32, k: u32, w: u32) -> bool
    requires { let s = signals.image.now in Marks s (count_at_of s 3) (count_at_of s 4) r taken.now }
    ensures { result ≡ bad_second signals.entry.image.now r k w }
{
    let image = signals.image;
    if k == 0 {
        return check_references::not_zero(
            image,
            image_fields::MEMORIES,
            r,
            image_fields::SECOND_PORT,
            10,
        );
    }
    let a = image_fields::record_field(image, image_fields::MEMORIES, r, image_fields::FIRST_DATA);
    let b = image_fields::record_field(image, image_fields::MEMORIES, r, image_fields::SECOND_DATA);
    k != 1 || bad_port(signals, taken, r, image_fields::SECOND_PORT, w) || a == b
}

// The depth, word width, style and latency of memory r, whose read data have w bits.
#[tactic(auto, using(spec_chains::proofs::Tests::chained), unfolding(crate::specs::Memory::bad_shape))]
fn bad_shape(image: &[u8], r: u32, w: u32) -> bool
    ensures { result ≡ bad_shape image.now r w }
{
    image_fields::is_outside(
        image_fields::record_field(image, image_fields::MEMORIES, r, 2),
        1,
        65536,
    ) || image_fields::record_field(image, image_fields::MEMORIES, r, image_fields::WORD_WIDTH) != w
        || 2 < image_fields::record_field(image, image_fields::MEMORIES, r, image_fields::STYLE)
        || image_fields::record_field(image, image_fields::MEMORIES, r, image_fields::LATENCY) != 1
}

// Memory r but for its name.
#[tactic(auto, using(spec_chains::proofs::Tests::chained), unfolding(crate::specs::Memory::bad_rest))]
fn bad_rest(signals: Signals, taken: &[u8], r: u32) -> bool
    requires { let s = signals.image.now in Marks s (count_at_of s 3) (count_at_of s 4) r taken.now }
    ensures { result ≡ bad_rest signals.entry.image.now r }
{
    let image = signals.image;
    let w = image_fields::signal_width(
        image,
        image_fields::record_field(image, image_fields::MEMORIES, r, image_fields::FIRST_DATA),
    );
    let k = image_fields::record_field(image, image_fields::MEMORIES, r, image_fields::HAS_SECOND);
    bad_shape(image, r, w)
        || bad_port(signals, taken, r, image_fields::FIRST_PORT, w)
        || bad_second(signals, taken, r, k, w)
}

// Marks the read data of memory r, which breaks no rule.
fn mark_memory(signals: Signals, taken: &mut [u8], r: u32)
    requires { let s = signals.image.now in (Marks s (count_at_of s 3) (count_at_of s 4) r taken.old) × (bad_rest s r ≡ false) }
    ensures { let s = signals.entry.image.now in Marks s (count_at_of s 3) (count_at_of s 4) (r + 1) taken.new }
{
    let image = signals.image;
    let p = image_fields::record_field(image, image_fields::MEMORIES, r, image_fields::FIRST_DATA);
    signals.mark_signal(taken, p);
    if image_fields::record_field(image, image_fields::MEMORIES, r, image_fields::HAS_SECOND) != 1 {
        return;
    }
    let q = image_fields::record_field(image, image_fields::MEMORIES, r, image_fields::SECOND_DATA);
    signals.mark_signal(taken, q);
}

// Memory r breaks another rule than that of names; the read data of one that breaks none are marked.
fn check_rest(signals: Signals, taken: &mut [u8], r: u32) -> bool
    requires { let s = signals.image.now in Marks s (count_at_of s 3) (count_at_of s 4) r taken.old }
    ensures { let s = signals.entry.image.now in (result ≡ bad_rest s r) × (result ≡ false → Marks s (count_at_of s 3) (count_at_of s 4) (r + 1) taken.new) }
{
    if bad_rest(signals, taken, r) {
        return true;
    }
    mark_memory(signals, taken, r);
    false
}

// The first memory that breaks another rule than that of names.
fn first_rest(signals: Signals, taken: &mut [u8]) -> Option<u32>
    requires { let s = signals.image.now in Marks s (count_at_of s 3) (count_at_of s 4) 0 taken.old }
    ensures { let s = signals.entry.image.now in result ≡ first_of (bad_rest s) (count_at_of s 5) }
{
    let n = image_fields::count(signals.image, image_fields::MEMORIES);
    for r in 0..n {
        if check_rest(signals, taken, r) {
            return Some(r);
        }
    }
    None
}

// The first memory record that breaks a rule.
pub fn first_memory(signals: Signals, taken: &mut [u8]) -> Option<u32>
    requires { let s = signals.image.now in (count_at_of s 5 ≤ 16) × (Marks s (count_at_of s 3) (count_at_of s 4) 0 taken.old) }
    ensures { let s = signals.entry.image.now in result ≡ first_of (bad_memory s) (count_at_of s 5) }
{
    check_names::earlier(
        check_names::first_name(signals.image, image_fields::MEMORIES),
        first_rest(signals, taken),
    )
}
