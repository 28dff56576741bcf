// Which bits of signals have a driver: assignments, register targets, read data of memories and inputs drive. The bits that the records
// so far drive are marked in a table with a byte for each bit of a signal; a second table has each signal's first bit.
#![tactic(auto)]

ghost use Rattle.std.specs.Prelude.{◌≡◌, ℕ, ◌+◌, ◌≤◌, ◌<◌, length};
ghost use Rattle.spec_tests.specs.Rules.{◌or◌, any, sum_to};
ghost use Rattle.spec_rules.specs.Image.{count_at_of, signal_width};
ghost use Rattle.spec_rules.specs.Checks.{signal_bits, is_input, assigned, targeted, read_into, driven};
ghost use Rattle.check_drivers.specs.Bits.{SignalsFit, Firsts, Marks, Marked, marked};

// Each signal's first bit; answers the bits of all signals.
pub fn lay_firsts(image: &[u8], firsts: &mut [u32]) -> u32
    requires { (SignalsFit image.now) × (count_at_of image.now 0 ≤ length firsts.old) }
    ensures { (result ≡ signal_bits image.now) × (Firsts image.now firsts.new) }
{
    let n = image_fields::count(image, image_fields::SIGNALS);
    let mut sum: u32 = 0;
    for p in 0..n {
        firsts[p as usize] = sum;
        sum += image_fields::signal_width(image, p);
    }
    sum
}

// An image whose signals keep their rules, and each signal's first bit.
#[derive(Clone, Copy)]
pub struct Signals<'a> {
    pub image: &'a [u8],
    pub firsts: &'a [u32],
    ghost laid: { Firsts image.now firsts.now },
}

// One of the n bits from at on is marked.
fn any_marked(taken: &[u8], at: usize, n: u32) -> bool
    requires { at + n ≤ length taken.now }
    ensures { result ≡ any (λ k. marked taken.now (at + k)) n }
{
    taken[at..at + n as usize].contains(&1)
}

// Marks the n bits from at on.
fn mark(taken: &mut [u8], at: usize, n: u32)
    requires { at + n ≤ length taken.old }
    ensures { Marked at n taken.old taken.new }
{
    taken[at..at + n as usize].fill(1);
}

// Signal p is an input.
#[tactic(auto, using(spec_chains::proofs::Tests::chained), unfolding(spec_rules::specs::Checks::is_input))]
pub fn is_input(image: &[u8], p: u32) -> bool
    ensures { result ≡ is_input image.now p }
{
    image_fields::record_field(image, image_fields::SIGNALS, p, 3) == 1
}

impl<'a> Signals<'a> {
    // Where bit b of signal p stands.
    fn place(self, p: u32, b: u32) -> usize
        requires { p < count_at_of self.image.now 0 }
        ensures { result ≡ sum_to (signal_width self.entry.image.now) p + b }
    {
        self.firsts[p as usize] as usize + b as usize
    }

    // One of the w bits of signal p from at on has a driver.
    fn is_marked(self, taken: &[u8], p: u32, at: u32, w: u32) -> bool
        requires { (signal_bits self.image.now ≤ length taken.now) × (p < count_at_of self.image.now 0) × (1 ≤ w) × (at + w ≤ signal_width self.image.now p) }
        ensures { (a i j : ℕ) → Marks self.entry.image.now a i j taken.now → result ≡ (assigned self.entry.image.now a p at w or targeted self.entry.image.now i p or read_into self.entry.image.now j p) }
    {
        any_marked(taken, self.place(p, at), w)
    }

    // An assignment drives one of the w bits of signal p from at on, where only assignments have been marked.
    pub fn is_assigned(self, taken: &[u8], p: u32, at: u32, w: u32) -> bool
        requires { (signal_bits self.image.now ≤ length taken.now) × (p < count_at_of self.image.now 0) × (1 ≤ w) × (at + w ≤ signal_width self.image.now p) }
        ensures { (a : ℕ) → Marks self.entry.image.now a 0 0 taken.now → result ≡ assigned self.entry.image.now a p at w }
    {
        self.is_marked(taken, p, at, w)
    }

    // Signal p has a driver, where all assignments have been marked.
    #[tactic(auto, using(spec_chains::proofs::Tests::chained), unfolding(spec_rules::specs::Checks::driven))]
    pub fn is_driven(self, taken: &[u8], p: u32) -> bool
        requires { (signal_bits self.image.now ≤ length taken.now) × (p < count_at_of self.image.now 0) }
        ensures { (i j : ℕ) → Marks self.entry.image.now (count_at_of self.entry.image.now 3) i j taken.now → result ≡ driven self.entry.image.now i j p }
    {
        is_input(self.image, p)
            || self.is_marked(taken, p, 0, image_fields::signal_width(self.image, p))
    }

    // Marks w bits of signal p from at on.
    pub fn mark_bits(self, taken: &mut [u8], p: u32, at: u32, w: u32)
        requires { (signal_bits self.image.now ≤ length taken.old) × (p < count_at_of self.image.now 0) × (at + w ≤ signal_width self.image.now p) }
        ensures { Marked (sum_to (signal_width self.entry.image.now) p + at) w taken.old taken.new }
    {
        mark(taken, self.place(p, at), w);
    }

    // Marks all bits of signal p.
    pub fn mark_signal(self, taken: &mut [u8], p: u32)
        requires { (signal_bits self.image.now ≤ length taken.old) × (p < count_at_of self.image.now 0) }
        ensures { Marked (sum_to (signal_width self.entry.image.now) p + 0) (signal_width self.entry.image.now p) taken.old taken.new }
    {
        self.mark_bits(taken, p, 0, image_fields::signal_width(self.image, p));
    }
}
