// Total readers of the module image: past the end a byte reads as 0, so no reader asks anything of its caller.
#![tactic(auto)]

ghost use Rattle.std.specs.Prelude.{◌≡◌, ◌+◌, ◌≤◌, ◌<◌, length, take, drop, get_or};
ghost use Rattle.spec_tests.specs.Rules.{outside};
ghost use Rattle.spec_rules.specs.Image as Image;
ghost use Rattle.image_fields.specs.Fields.{field_in};

// The byte at a place, 0 past the end.
fn own_byte(image: &[u8], at: usize) -> u8
    ensures { result ≡ get_or image.now at 0 }
{
    image.get(at).copied().unwrap_or(0)
}

// The same as a word.
pub fn byte(image: &[u8], at: usize) -> u32
    ensures { (result ≡ get_or image.now at 0) × (result < 256) }
{
    u32::from(own_byte(image, at))
}

// What begins at a place; nothing where the place is past the end.
pub fn part<T>(xs: &[T], at: usize) -> &[T]
    ensures { result.now ≡ drop at xs.now }
{
    &xs[at.min(xs.len())..]
}

// The n elements from a place on, or as many as there are.
pub fn stretch<T>(xs: &[T], at: usize, n: usize) -> &[T]
    ensures { result.now ≡ take n (drop at xs.now) }
{
    let rest = part(xs, at);
    &rest[..n.min(rest.len())]
}

// The 32-bit word at a place near or past the end.
fn last_word(image: &[u8], at: usize) -> u32
    requires { at + 3 < 18446744073709551616 }
    ensures { result ≡ Image.word_at image.now at }
{
    u32::from_le_bytes([
        own_byte(image, at),
        own_byte(image, at + 1),
        own_byte(image, at + 2),
        own_byte(image, at + 3),
    ])
}

// The 32-bit word at the start of four bytes or more: one load.
fn first_word(p: &[u8]) -> u32
    requires { 4 ≤ length p.now }
    ensures { result ≡ Image.word_at p.now 0 }
{
    u32::from_le_bytes([p[0], p[1], p[2], p[3]])
}

// The 32-bit word at a place.
pub fn word(image: &[u8], at: usize) -> u32
    requires { at + 3 < 18446744073709551616 }
    ensures { result ≡ Image.word_at image.now at }
{
    if at + 3 < image.len() {
        return first_word(&image[at..at + 4]);
    }
    last_word(image, at)
}

// The sections of the image, in the header's order.
pub const SIGNALS: u32 = 0;

pub const EXPRESSIONS: u32 = 1;

pub const LIST: u32 = 2;

pub const ASSIGNMENTS: u32 = 3;

pub const REGISTERS: u32 = 4;

pub const MEMORIES: u32 = 5;

pub const NAMES: u32 = 6;

// The fields of a memory: name, depth, then these. Ten fields make a port; its read data is the second of them.
pub const WORD_WIDTH: u32 = 3;

pub const STYLE: u32 = 4;

pub const LATENCY: u32 = 5;

pub const FIRST_PORT: u32 = 6;

pub const HAS_SECOND: u32 = FIRST_PORT + 10;

pub const SECOND_PORT: u32 = HAS_SECOND + 1;

pub const FIRST_DATA: u32 = FIRST_PORT + 1;

pub const SECOND_DATA: u32 = SECOND_PORT + 1;

const SIZES: [u8; 7] = [16, 20, 4, 16, 48, 108, 1];

// The bytes of a record of section k.
pub fn size(k: u32) -> usize
    ensures { (result ≡ Image.size_of k) × (result ≤ 108) }
{
    if k < 7 { SIZES[k as usize] as usize } else { 0 }
}

// How many records section k says it has.
pub fn count(image: &[u8], k: u32) -> u32
    ensures { result ≡ Image.count_at_of image.now k }
{
    word(image, 8 + 8 * (k as usize))
}

// Where section k says it starts.
pub fn offset(image: &[u8], k: u32) -> u32
    ensures { result ≡ Image.offset_at image.now k }
{
    word(image, 12 + 8 * (k as usize))
}

// The part of the image that begins at section k's offset.
pub fn section(image: &[u8], k: u32) -> &[u8]
    ensures { result.now ≡ Image.part image.now k }
{
    part(image, offset(image, k) as usize)
}

// Field f of record r of section k, whose part of the image is p.
pub fn field(p: &[u8], k: u32, r: u32, f: u32) -> u32
    ensures { result ≡ field_in p.now k r f }
{
    word(p, (r as usize) * size(k) + (f as usize) * 4)
}

// Field f of record r of section k of the image.
pub fn record_field(image: &[u8], k: u32, r: u32, f: u32) -> u32
    ensures { result ≡ Image.field image.now k r f }
{
    field(section(image, k), k, r, f)
}

// Word i of the list.
pub fn list_word(image: &[u8], i: u32) -> u32
    ensures { result ≡ Image.list_word image.now i }
{
    record_field(image, LIST, i, 0)
}

// The width of signal r.
pub fn signal_width(image: &[u8], r: u32) -> u32
    ensures { result ≡ Image.signal_width image.now r }
{
    record_field(image, SIGNALS, r, 2)
}

// The width of expression r.
pub fn expr_width(image: &[u8], r: u32) -> u32
    ensures { result ≡ Image.expr_width image.now r }
{
    record_field(image, EXPRESSIONS, r, 1)
}

// The name of record r of section k: that stretch of the image.
pub fn name(image: &[u8], k: u32, r: u32) -> &[u8]
    ensures { result.now ≡ Image.name_of image.now k r }
{
    let at = record_field(image, k, r, 0);
    let len = record_field(image, k, r, 1);
    stretch(section(image, NAMES), at as usize, len as usize)
}

// x is below lo or above hi.
pub fn is_outside(x: u32, lo: u32, hi: u32) -> bool
    ensures { result ≡ outside x lo hi }
{
    x < lo || hi < x
}
