// The rows of the range table on numbers: what an expression's range is, from its operands' ranges.
#![tactic(auto)]

ghost use Rattle.std.specs.Prelude.{◌≡◌, ◌+◌, ◌-◌, ◌*◌, ◌/◌, ◌%◌, ◌^◌, ◌<◌, ◌≤◌, min, max, ◌&&◌, nat_le};
ghost use Rattle.std.proofs.Math.Option.{some};
ghost use Rattle.spec_tests.specs.Options.{option_of};
ghost use Rattle.spec_model.specs.Ranges as model;
ghost use Rattle.expr_range_rows.specs.Rows.{shown, known, Held, Joins, and_range, join_of};

// The least and the largest number that a word can be.
#[derive(Clone, Copy)]
pub struct Range {
    pub min: u64,
    pub max: u64,
}

// The largest number of width bits.
pub fn mask(width: u32) -> u64
    requires { (1 ≤ width) × (width ≤ 64) }
    ensures { result ≡ 2 ^ width - 1 }
{
    u64::MAX >> (64 - width)
}

// The sum of two constants, modulo 2^64 before the mask.
fn constant_sum(a: u64, b: u64, width: u32) -> u64
    requires { (1 ≤ width) × (width ≤ 64) }
    ensures { result ≡ (a + b) % 2 ^ 64 % 2 ^ width }
{
    std::num::wrapping_add_u64(a, b) & mask(width)
}

// The difference of two constants, modulo 2^64 before the mask.
fn constant_difference(a: u64, b: u64, width: u32) -> u64
    requires { (1 ≤ width) × (width ≤ 64) }
    ensures { result ≡ (a + (2 ^ 64 - b)) % 2 ^ 64 % 2 ^ width }
{
    std::num::wrapping_sub_u64(a, b) & mask(width)
}

pub fn point(x: u64) -> Range
    ensures { shown result ≡ model.point x }
{
    Range { min: x, max: x }
}

// All numbers of the width.
pub fn full(width: u32) -> Range
    requires { (1 ≤ width) × (width ≤ 64) }
    ensures { shown result ≡ model.full width }
{
    Range {
        min: 0,
        max: mask(width),
    }
}

fn both_single(l: Range, r: Range) -> bool
    ensures { result ≡ (model.single (shown l) && model.single (shown r)) }
{
    l.min == l.max && r.min == r.max
}

// The sum is at most m, whether or not it fits 64 bits.
fn sum_fits(a: u64, b: u64, m: u64) -> bool
    ensures { result ≡ nat_le (a + b) m }
{
    a <= m && b <= m - a
}

// Add: two constants wrap; else the sums, where the largest fits.
pub fn add_range(l: Range, r: Range, width: u32) -> Range
    requires { Held l r width }
    ensures { shown result ≡ model.add_range width (shown l) (shown r) }
{
    if both_single(l, r) {
        return point(constant_sum(l.min, r.min, width));
    }
    if sum_fits(l.max, r.max, mask(width)) {
        return Range {
            min: l.min + r.min,
            max: l.max + r.max,
        };
    }
    full(width)
}

// Sub: two constants wrap; else the differences, where none is negative.
pub fn sub_range(l: Range, r: Range, width: u32) -> Range
    requires { Held l r width }
    ensures { shown result ≡ model.sub_range width (shown l) (shown r) }
{
    if both_single(l, r) {
        return point(constant_difference(l.min, r.min, width));
    }
    if r.max <= l.min {
        return Range {
            min: l.min - r.max,
            max: l.max - r.min,
        };
    }
    full(width)
}

// And: at most the smaller of the largest.
pub fn and_range(l: Range, r: Range) -> Range
    ensures { shown result ≡ and_range (shown l) (shown r) }
{
    Range {
        min: 0,
        max: l.max.min(r.max),
    }
}

// How many bits a number takes.
fn bit_width(x: u64) -> u32
    ensures { result ≡ model.bit_len 64 x }
{
    64 - u64::leading_zeros(x)
}

// The number with all ones up to the bit length of x.
fn ones(x: u64) -> u64
    ensures { result ≡ 2 ^ model.bit_len 64 x - 1 }
{
    if x == 0 {
        return 0;
    }
    mask(bit_width(x))
}

// Or, Xor: all ones up to the bit length of the larger of the largest.
pub fn or_range(l: Range, r: Range) -> Range
    ensures { shown result ≡ model.or_range (shown l) (shown r) }
{
    Range {
        min: 0,
        max: ones(l.max.max(r.max)),
    }
}

fn hull(lhs: Range, rhs: Range) -> Range
    ensures { shown result ≡ model.hull (shown lhs) (shown rhs) }
{
    Range {
        min: lhs.min.min(rhs.min),
        max: lhs.max.max(rhs.max),
    }
}

fn is_point(k: u64, r: Range) -> bool
    ensures { result ≡ model.is_point k (shown r) }
{
    r.min == k && r.max == k
}

// Mux: the side that a constant condition takes, else the hull of both. An expression wider than 64 bits has no range.
pub fn mux_range(condition: Option<Range>, then_range: Range, else_range: Range) -> Range
    ensures { shown result ≡ model.mux_range (known condition) (shown then_range) (shown else_range) }
{
    match condition {
        Some(r) => {
            if is_point(0, r) {
                return else_range;
            }
            if is_point(1, r) {
                return then_range;
            }
            hull(then_range, else_range)
        }
        None => hull(then_range, else_range),
    }
}

// Slice: a constant's bits, else from 0 on.
pub fn slice_range(lsb: u32, width: u32, r: Range) -> Range
    requires { (lsb < 64) × (1 ≤ width) × (width ≤ 64) }
    ensures { shown result ≡ model.slice_range_of lsb width (shown r) }
{
    let high = r.max >> lsb;
    if r.min == r.max {
        return point(high & mask(width));
    }
    Range {
        min: 0,
        max: high.min(mask(width)),
    }
}

// What was joined so far moves up by the width of the part.
fn joined(acc: u64, part: u64, width: u32) -> u64
    requires { (width ≤ 64) × (acc * 2 ^ width + part < 2 ^ 64) }
    ensures { result ≡ acc * 2 ^ width + part }
{
    if width == 64 {
        return part;
    }
    (acc << width) + part
}

// Concat: one part more.
pub fn join_range(acc: Range, part: Range, width: u32) -> Range
    requires { Joins acc part width }
    ensures { shown result ≡ join_of (shown acc) width (shown part) }
{
    Range {
        min: joined(acc.min, part.min, width),
        max: joined(acc.max, part.max, width),
    }
}

// The width that an Add of this range is narrowed to, if it is.
pub fn narrowed(width: u32, r: Range) -> Option<u32>
    ensures { option_of result ≡ model.narrow_by width (some (shown r)) }
{
    let needed = bit_width(r.max).max(1);
    if needed < width { Some(needed) } else { None }
}
