// The rules of the expression records, kind by kind, and the first record that breaks one. For all bytes: a reader past the end gives 0.
#![tactic(auto)]

ghost use Rattle.std.specs.Prelude.{◌≡◌, ◌+◌, ◌≤◌};
ghost use Rattle.spec_tests.specs.Rules.{any, sum_to};
ghost use Rattle.spec_tests.specs.Options.{first_of};
ghost use Rattle.spec_rules.specs.Image.{count_at_of, expr_width};
ghost use Rattle.spec_rules.specs.Checks.{late, bad_unary, bad_binary, bad_concat, bad_kind, bad_expr};
ghost use Rattle.check_expressions.specs.Kinds.{late_word, part_width, bad_read, bad_constant, bad_unary_of, bad_binary_of, bad_mux, bad_concat_of, bad_slice, bad_fields};

// Operand e of record r has no lower number.
pub fn is_late(r: u32, e: u32) -> bool
    ensures { result ≡ late r e }
{
    r <= e
}

// Unary operator op of width w, on a width x.
#[tactic(auto, using(spec_chains::proofs::Tests::chained), unfolding(spec_rules::specs::Checks::bad_unary))]
fn bad_unary(op: u32, w: u32, x: u32) -> bool
    ensures { result ≡ bad_unary op w x }
{
    if 4 < op {
        return true;
    }
    if op == 0 { x != w } else { w != 1 }
}

// Binary operator op of width w, on widths x and y.
#[tactic(auto, using(spec_chains::proofs::Tests::chained), unfolding(spec_rules::specs::Checks::bad_binary))]
fn bad_binary(op: u32, w: u32, x: u32, y: u32) -> bool
    ensures { result ≡ bad_binary op w x y }
{
    if 18 < op {
        return true;
    }
    if op < 6 {
        return x != w || y != w;
    }
    if op < 16 {
        return w != 1 || x != y;
    }
    x != w
}

// A part of a Concat in record r has no lower number.
fn has_late_part(image: &[u8], r: u32, start: u32, count: u32) -> bool
    requires { start + count ≤ 4294967295 }
    ensures { result ≡ any (late_word image.now r start) count }
{
    (0..count).any(|i| is_late(r, image_fields::list_word(image, start + i)))
}

// What the widths of a Concat's parts come to.
fn parts_sum(image: &[u8], start: u32, count: u32) -> u64
    requires { start + count ≤ 4294967295 }
    ensures { result ≡ sum_to (part_width image.now start) count }
{
    let mut t: u64 = 0;
    for i in 0..count {
        t += image_fields::expr_width(image, image_fields::list_word(image, start + i)) as u64;
    }
    t
}

#[tactic(auto, using(spec_chains::proofs::Tests::chained), unfolding(spec_rules::specs::Checks::bad_concat, crate::specs::Kinds::late_word, crate::specs::Kinds::part_width))]
fn bad_concat(image: &[u8], r: u32, w: u32, start: u32, count: u32) -> bool
    ensures { result ≡ bad_concat image.now r w start count }
{
    count == 0
        || check_references::below_sum(image_fields::count(image, image_fields::LIST), start, count)
        || has_late_part(image, r, start, count)
        || parts_sum(image, start, count) != (w as u64)
}

// ---- record r of each kind, with width w and operands a, b, c ----

#[tactic(auto, using(spec_chains::proofs::Tests::chained), unfolding(crate::specs::Kinds::bad_read))]
fn bad_read(image: &[u8], w: u32, a: u32, b: u32, c: u32) -> bool
    ensures { result ≡ bad_read image.now w a b c }
{
    check_references::no_signal(image, a)
        || check_references::below_sum(image_fields::signal_width(image, a), b, w)
        || c != 0
}

#[tactic(auto, using(spec_chains::proofs::Tests::chained), unfolding(crate::specs::Kinds::bad_constant, spec_rules::specs::Image::constant_words))]
fn bad_constant(image: &[u8], w: u32, a: u32, b: u32, c: u32) -> bool
    requires { w ≤ 1024 }
    ensures { result ≡ bad_constant image.now w a b c }
{
    check_references::below_sum(
        image_fields::count(image, image_fields::LIST),
        a,
        2 * ((w + 63) / 64),
    ) || b != 0
        || c != 0
}

#[tactic(auto, using(spec_chains::proofs::Tests::chained), unfolding(crate::specs::Kinds::bad_unary_of))]
fn bad_unary_of(image: &[u8], r: u32, w: u32, a: u32, b: u32, c: u32) -> bool
    ensures { result ≡ bad_unary_of image.now r w a b c }
{
    is_late(r, b) || bad_unary(a, w, image_fields::expr_width(image, b)) || c != 0
}

#[tactic(auto, using(spec_chains::proofs::Tests::chained), unfolding(crate::specs::Kinds::bad_binary_of))]
fn bad_binary_of(image: &[u8], r: u32, w: u32, a: u32, b: u32, c: u32) -> bool
    ensures { result ≡ bad_binary_of image.now r w a b c }
{
    is_late(r, b)
        || is_late(r, c)
        || bad_binary(
            a,
            w,
            image_fields::expr_width(image, b),
            image_fields::expr_width(image, c),
        )
}

#[tactic(auto, using(spec_chains::proofs::Tests::chained), unfolding(crate::specs::Kinds::bad_mux))]
fn bad_mux(image: &[u8], r: u32, w: u32, a: u32, b: u32, c: u32) -> bool
    ensures { result ≡ bad_mux image.now r w a b c }
{
    is_late(r, a)
        || is_late(r, b)
        || is_late(r, c)
        || image_fields::expr_width(image, a) != 1
        || image_fields::expr_width(image, b) != w
        || image_fields::expr_width(image, c) != w
}

#[tactic(auto, using(spec_chains::proofs::Tests::chained), unfolding(crate::specs::Kinds::bad_concat_of))]
fn bad_concat_of(image: &[u8], r: u32, w: u32, a: u32, b: u32, c: u32) -> bool
    ensures { result ≡ bad_concat_of image.now r w a b c }
{
    bad_concat(image, r, w, a, b) || c != 0
}

#[tactic(auto, using(spec_chains::proofs::Tests::chained), unfolding(crate::specs::Kinds::bad_slice))]
fn bad_slice(image: &[u8], r: u32, w: u32, a: u32, b: u32, c: u32) -> bool
    ensures { result ≡ bad_slice image.now r w a b c }
{
    is_late(r, a) || check_references::below_sum(image_fields::expr_width(image, a), b, w) || c != 0
}

fn bad_kind(image: &[u8], r: u32, k: u32, w: u32, a: u32, b: u32, c: u32) -> bool
    requires { w ≤ 1024 }
    ensures { result ≡ bad_kind image.now r k w a b c }
{
    match k {
        0 => bad_read(image, w, a, b, c),
        1 => bad_constant(image, w, a, b, c),
        2 => bad_unary_of(image, r, w, a, b, c),
        3 => bad_binary_of(image, r, w, a, b, c),
        4 => bad_mux(image, r, w, a, b, c),
        5 => bad_concat_of(image, r, w, a, b, c),
        6 => bad_slice(image, r, w, a, b, c),
        _ => true,
    }
}

// The kind and operands of record r, whose width is w.
fn bad_fields(image: &[u8], r: u32, w: u32) -> bool
    requires { w ≤ 1024 }
    ensures { result ≡ bad_fields image.now r w }
{
    bad_kind(
        image,
        r,
        image_fields::record_field(image, image_fields::EXPRESSIONS, r, 0),
        w,
        image_fields::record_field(image, image_fields::EXPRESSIONS, r, 2),
        image_fields::record_field(image, image_fields::EXPRESSIONS, r, 3),
        image_fields::record_field(image, image_fields::EXPRESSIONS, r, 4),
    )
}

// Expression record r breaks a rule; the widths before it come to sum.
fn bad_expr(image: &[u8], r: u32, sum: u32) -> bool
    requires { (sum ≡ sum_to (expr_width image.now) r) × (sum ≤ 32768) }
    ensures { result ≡ bad_expr image.now r }
{
    let w = image_fields::expr_width(image, r);
    if image_fields::is_outside(w, 1, 1024) {
        return true;
    }
    32768 < sum + w || bad_fields(image, r, w)
}

// The first expression record that breaks a rule.
pub fn first_expr(image: &[u8]) -> Option<u32>
    ensures { result ≡ first_of (bad_expr image.now) (count_at_of image.now 1) }
{
    let n = image_fields::count(image, image_fields::EXPRESSIONS);
    let mut sum: u32 = 0;
    for r in 0..n {
        if bad_expr(image, r, sum) {
            return Some(r);
        }
        sum += image_fields::expr_width(image, r);
    }
    None
}
