// The fixed words of the scratch, and the words of an expression's row; what the scratch holds is in specs/, with its laws.

// Fixed words: the limit of nets, the signal bits, where the rows of the expressions start, where their nets start, the flag
// `resolve_observable_dependencies`; so many there are.
#![tactic(auto)]

pub const LIMIT: usize = 0;

pub const SIGNAL_BITS: usize = 1;

pub const ROWS: usize = 2;

pub const NETS: usize = 3;

pub const OBSERVABLE: usize = 4;

pub const FIXED: usize = 64;

// The words of a row; which of them says that the expression is lowered whole, where its range's four words begin, which has the width
// that its adder is narrowed to.
pub const ROW: usize = 8;

pub const WHOLE: usize = 1;

pub const RANGE: usize = 2;

pub const NARROWED: usize = 6;
