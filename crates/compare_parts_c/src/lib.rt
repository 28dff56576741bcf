// The calls of compare_parts for C: each of them calls that library's function of its name, with the same clauses.
#![tactic(auto)]

// Ranges and narrowed adders, eight words for each expression; false if the image is refused or the table short.
#[unsafe(no_mangle)]
pub extern "C" fn compare_adder_widths(image: &[u8], table: &mut [u32]) -> bool {
    compare_parts::compare_adder_widths(image, table)
}

// Fusion answers for a pair of expressions; false if the image is refused or has no such expressions.
#[unsafe(no_mangle)]
pub extern "C" fn compare_fusion(image: &[u8], a: u32, b: u32, row: &mut [u32; 8]) -> bool {
    compare_parts::compare_fusion(image, a, b, row)
}

// An empty netlist of n nets, then the first so many operations, of five words each. The answer: 0, 9 or 10, and where; 1 if what is lent does not fit.
#[unsafe(no_mangle)]
pub extern "C" fn compare_build(
    n: u32,
    ops: &[u32],
    turns: usize,
    pool: &[u32],
    net: &mut [u32],
    idx: &mut [u32],
    results: &mut [u32],
    answer: &mut [u64; 2],
) {
    compare_parts::compare_build(n, ops, turns, pool, net, idx, results, answer);
}
