// The module image as a struct that holds it as a borrowed slice (`Lowering<'a>` of the Rust). Its methods take it apart and call a
// reader on the slice and a number; names are handed back as stretches of the caller's image. Functions with plain parameters stand
// above it: who calls those has no struct in hand.
#![tactic(auto)]

ghost use Rattle.std.specs.Prelude.{◌≡◌};
ghost use Rattle.spec_rules.specs.Image.{count_at_of, name_of, signal_width, signal_at, assign_at, register_at, memory_at};
ghost use Rattle.spec_rules.specs.Checks.{checked};
ghost use Rattle.image_records.specs.Expr.{Decoded};
ghost use Rattle.image_records.specs.Others.{signal_means, assignment_means, register_means, memory_means};
ghost use Rattle.check_image.specs.Checked.{answer_of};

use check_image::Refusal;
use image_records::{Assignment, Expression, Memory, Register, Signal};

#[derive(Clone, Copy)]
pub struct Lowering<'a> {
    pub image: &'a [u8],
}

impl<'a> Lowering<'a> {
    // An image, borrowed.
    pub fn new(image: &'a [u8]) -> Lowering<'a>
        ensures { result.image ≡ image.entry }
    {
        Lowering { image }
    }

    // Refusals 1 to 5, for net limit n, list limit p and the words of the two buffers.
    pub fn check(self, n: u32, p: u32, netlist: usize, scratch: usize) -> Result<(), Refusal>
        ensures { answer_of result ≡ checked self.entry.image.now n p netlist scratch }
    {
        check_image::check(self.image, n, p, netlist, scratch)
    }

    // How many records section k has.
    pub fn count(self, k: u32) -> u32
        ensures { result ≡ count_at_of self.entry.image.now k }
    {
        image_fields::count(self.image, k)
    }

    // The width of signal p.
    pub fn signal_width(self, p: u32) -> u32
        ensures { result ≡ signal_width self.entry.image.now p }
    {
        image_fields::signal_width(self.image, p)
    }

    pub fn signal(self, p: u32) -> Signal
        ensures { signal_means result ≡ signal_at self.entry.image.now p }
    {
        image_records::signal_at(self.image, p)
    }

    pub fn expression(self, e: u32) -> Expression
        ensures { Decoded self.entry.image.now e result }
    {
        image_records::expression_at(self.image, e)
    }

    pub fn assignment(self, a: u32) -> Assignment
        ensures { assignment_means result ≡ assign_at self.entry.image.now a }
    {
        image_records::assignment_at(self.image, a)
    }

    pub fn register(self, r: u32) -> Register
        ensures { register_means result ≡ register_at self.entry.image.now r }
    {
        image_records::register_at(self.image, r)
    }

    pub fn memory(self, m: u32) -> Memory
        ensures { memory_means result ≡ memory_at self.entry.image.now m }
    {
        image_records::memory_at(self.image, m)
    }

    // The names of signal p, register r and memory m: that stretch of the image.
    pub fn signal_name(self, p: u32) -> &'a [u8]
        ensures { result.now ≡ name_of self.entry.image.now 0 p }
    {
        image_fields::name(self.image, image_fields::SIGNALS, p)
    }

    pub fn register_name(self, r: u32) -> &'a [u8]
        ensures { result.now ≡ name_of self.entry.image.now 4 r }
    {
        image_fields::name(self.image, image_fields::REGISTERS, r)
    }

    pub fn memory_name(self, m: u32) -> &'a [u8]
        ensures { result.now ≡ name_of self.entry.image.now 5 m }
    {
        image_fields::name(self.image, image_fields::MEMORIES, m)
    }
}

// Expression e of an image.
pub fn expression_of(image: &[u8], e: u32) -> Expression
    ensures { Decoded image.now e result }
{
    Lowering::new(image).expression(e)
}

// Assignment a of an image.
pub fn assignment_of(image: &[u8], a: u32) -> Assignment
    ensures { assignment_means result ≡ assign_at image.now a }
{
    Lowering::new(image).assignment(a)
}

// The name of signal p of an image.
pub fn signal_name_of(image: &[u8], p: u32) -> &[u8]
    ensures { result.now ≡ name_of image.now 0 p }
{
    Lowering::new(image).signal_name(p)
}

// The name of the signal that assignment a drives.
pub fn driven_name(image: &[u8], a: u32) -> &[u8]
    ensures { result.now ≡ name_of image.now 0 (assign_at image.now a).signal }
{
    let x = assignment_of(image, a);
    signal_name_of(image, x.signal)
}
