// ABSENT, and the numbers of the netlist image by name (docs/FORMATS.md). Constants only.

// Stands for a net, a signal, an expression or a word that is not there.
#![tactic(auto)]

pub const ABSENT: u32 = 4294967295;
// ---- kinds of nodes, by struo-ir's `NodeKind` ----
pub const INPUT: u32 = 0;

pub const CONSTANT: u32 = 1;

pub const AND: u32 = 2;

pub const OR: u32 = 3;

pub const XOR: u32 = 4;

pub const NOT: u32 = 5;

pub const MUX: u32 = 6;

pub const REGISTER_OUTPUT: u32 = 7;

pub const OUTPUT: u32 = 8;

pub const MEMORY_OUTPUT: u32 = 9;

pub const ARITHMETIC_OUTPUT: u32 = 10;

pub const COMPARISON_OUTPUT: u32 = 11;
// ---- kinds of list records ----
pub const PORT_RECORD: u32 = 0;

pub const REGISTER_RECORD: u32 = 1;

pub const MEMORY_RECORD: u32 = 2;

pub const ARITHMETIC_RECORD: u32 = 3;

pub const COMPARISON_RECORD: u32 = 4;
// ---- words of the netlist image's header ----
pub const EDITION: usize = 0;

pub const NET_COUNT: usize = 1;

pub const NODES_AT: usize = 2;

pub const LIST_USED: usize = 3;

pub const LIST_AT: usize = 4;
// The records of each kind, in the order of the kinds.
pub const RECORD_COUNTS: usize = 5;

pub const ARITHMETIC_COUNT: usize = RECORD_COUNTS + 3;

pub const COMPARISON_COUNT: usize = RECORD_COUNTS + 4;

pub const HEADER_LENGTH: usize = 16;

// Where the nodes begin, as the header says it.
pub const NODES_START: u32 = 16;
// ---- words of a node; the first is its kind ----
pub const OWNER: usize = 1;

pub const BIT: usize = 2;

pub const INPUT_0: usize = 3;

pub const INPUT_1: usize = 4;

pub const INPUT_2: usize = 5;

pub const NODE_LENGTH: usize = 6;
