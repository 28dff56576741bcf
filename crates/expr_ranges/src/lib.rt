// The range of every expression of at most 64 bits, and the width that an Add of that range is narrowed to. Follows ranges.rs of struo-synth.
// The table has eight words for each expression: 2 and 3 the least number, 4 and 5 the largest, 6 the width (0 for none).
#![tactic(auto)]

ghost use Rattle.std.specs.Prelude.{◌≡◌, ◌+◌, ◌*◌, ◌/◌, ◌%◌, ◌≤◌, ◌<◌, length};
ghost use Rattle.spec_rtl.specs.Rtl.{Kind};
ghost use Rattle.spec_rules.specs.Image.{count_at_of, expr_width};
ghost use Rattle.spec_model.specs.Ranges as model;
ghost use Rattle.image_records.specs.Expr.{binary_means};
ghost use Rattle.expr_range_rows.specs.Rows.{shown, known, Held};
ghost use Rattle.expr_laws.specs.Exprs.{exprs_of, Readable};
ghost use Rattle.expr_ranges.specs.Table.{range_in, put_row, filled};
ghost use Rattle.expr_ranges.specs.Steps.{Row, Rows, RowList, TwoRows, MuxRows, SliceRow, parts_range, range_by, row_width, row_range};

use expr_range_rows::Range;
use image_records::{BinaryOp, ExprKind, Expression, OpClass};

fn low_half(x: u64) -> u32
    ensures { result ≡ x % 4294967296 }
{
    (x % 4294967296) as u32
}

fn high_half(x: u64) -> u32
    ensures { result ≡ x / 4294967296 }
{
    (x / 4294967296) as u32
}

fn both_halves(low: u32, high: u32) -> u64
    ensures { result ≡ low + high * 4294967296 }
{
    (low as u64) + (high as u64) * 4294967296
}

// Writes the row of expression e.
fn store_row(table: &mut [u32], e: u32, range: Range, width: u32)
    requires { e * 8 + 8 ≤ length table.old }
    ensures { table.new ≡ put_row table.old e (shown range) width }
{
    let at = (e as usize) * scratch_view::ROW + scratch_view::RANGE;
    table[at] = low_half(range.min);
    table[at + 1] = high_half(range.min);
    table[at + 2] = low_half(range.max);
    table[at + 3] = high_half(range.max);
    table[at + 4] = width;
}

// Reads the range of expression e.
fn load_range(table: &[u32], e: u32) -> Range
    requires { e * 8 + 8 ≤ length table.now }
    ensures { shown result ≡ range_in table.now e }
{
    let at = (e as usize) * scratch_view::ROW + scratch_view::RANGE;
    Range {
        min: both_halves(table[at], table[at + 1]),
        max: both_halves(table[at + 2], table[at + 3]),
    }
}

// The range of an expression whose row is written; none where it is wider than 64 bits.
fn known_range(image: &[u8], table: &[u32], e: u32) -> Option<Range>
    requires { Row image.now table.now e }
    ensures { known result ≡ model.range_at (exprs_of image.now) e }
{
    if 64 < image_fields::expr_width(image, e) {
        return None;
    }
    Some(load_range(table, e))
}

// The row of an operator.
fn binary_range(op: BinaryOp, l: Range, r: Range, width: u32) -> Range
    requires { Held l r width }
    ensures { shown result ≡ model.binary_range (model.class_of (binary_means op)) width (shown l) (shown r) }
{
    match image_records::op_class(op) {
        OpClass::Ands => expr_range_rows::and_range(l, r),
        OpClass::Ors => expr_range_rows::or_range(l, r),
        OpClass::Adds => expr_range_rows::add_range(l, r, width),
        OpClass::Subtracts => expr_range_rows::sub_range(l, r, width),
        OpClass::Other => expr_range_rows::full(width),
    }
}

fn range_of_binary(
    image: &[u8],
    table: &[u32],
    op: BinaryOp,
    lhs: u32,
    rhs: u32,
    width: u32,
) -> Range
    requires { TwoRows image.now table.now lhs rhs width }
    ensures { shown result ≡ model.two width (model.range_at (exprs_of image.now) lhs) (model.range_at (exprs_of image.now) rhs) (model.binary_range (model.class_of (binary_means op)) width) }
{
    let Some(l) = known_range(image, table, lhs) else {
        return expr_range_rows::full(width);
    };
    let Some(r) = known_range(image, table, rhs) else {
        return expr_range_rows::full(width);
    };
    binary_range(op, l, r, width)
}

fn range_of_mux(image: &[u8], table: &[u32], condition: u32, yes: u32, no: u32, width: u32) -> Range
    requires { MuxRows image.now table.now condition yes no width }
    ensures { shown result ≡ model.two width (model.range_at (exprs_of image.now) yes) (model.range_at (exprs_of image.now) no) (model.mux_range (model.range_at (exprs_of image.now) condition)) }
{
    let Some(y) = known_range(image, table, yes) else {
        return expr_range_rows::full(width);
    };
    let Some(n) = known_range(image, table, no) else {
        return expr_range_rows::full(width);
    };
    expr_range_rows::mux_range(known_range(image, table, condition), y, n)
}

fn range_of_slice(image: &[u8], table: &[u32], input: u32, lsb: u32, width: u32) -> Range
    requires { SliceRow image.now table.now input lsb width }
    ensures { shown result ≡ model.one width (model.range_at (exprs_of image.now) input) (model.slice_range_of lsb width) }
{
    let Some(r) = known_range(image, table, input) else {
        return expr_range_rows::full(width);
    };
    expr_range_rows::slice_range(lsb, width, r)
}

// Concat: the first part is the most significant.
fn range_of_concat(image: &[u8], table: &[u32], start: u32, count: u32, width: u32) -> Range
    requires { RowList image.now table.now start count width }
    ensures { shown result ≡ parts_range image.now start count width }
{
    let mut result = Range { min: 0, max: 0 };
    for i in 0..count {
        let part = image_fields::list_word(image, start + i);
        let Some(r) = known_range(image, table, part) else {
            return expr_range_rows::full(width);
        };
        result = expr_range_rows::join_range(result, r, image_fields::expr_width(image, part));
    }
    result
}

// The range of expression e, of at most 64 bits, from those of the expressions before it.
fn expression_range(image: &[u8], table: &[u32], e: u32) -> Range
    requires { Rows image.now table.now e × (expr_width image.now e ≤ 64) }
    ensures { shown result ≡ range_by image.now e }
{
    let Expression { width, kind } = image_records::expression_at(image, e);
    match kind {
        ExprKind::Constant(start) => expr_range_rows::point(expr_constants::constant_value(
            image, start, width,
        )),
        ExprKind::Binary(op, lhs, rhs) => range_of_binary(image, table, op, lhs, rhs, width),
        ExprKind::Mux(c, t, f) => range_of_mux(image, table, c, t, f, width),
        ExprKind::Slice(input, lsb) => range_of_slice(image, table, input, lsb, width),
        ExprKind::Concat(start, count) => range_of_concat(image, table, start, count, width),
        ExprKind::Signal(_, _) => expr_range_rows::full(width),
        ExprKind::Unary(_, _) => expr_range_rows::full(width),
    }
}

// Writes the row of expression e, those before it being written.
fn fill_row(image: &[u8], table: &mut [u32], e: u32)
    requires { Rows image.now table.old e }
    ensures { table.new ≡ put_row table.old e (row_range image.now e) (row_width image.now e) }
{
    let width = image_fields::expr_width(image, e);
    if 64 < width {
        store_row(table, e, expr_range_rows::point(0), 0);
        return;
    }
    let range = expression_range(image, table, e);
    let needed = expr_range_rows::narrowed(width, range);
    store_row(table, e, range, needed.unwrap_or(0));
}

pub fn adder_widths(image: &[u8], table: &mut [u32])
    requires { Readable image.now × (count_at_of image.now 1 * 8 ≤ length table.old) }
    ensures { table.new ≡ filled (exprs_of image.now) (count_at_of image.now 1) table.old }
{
    let count = image_fields::count(image, image_fields::EXPRESSIONS);
    for e in 0..count {
        fill_row(image, table, e);
    }
}
