// Parts of a job that no operator makes: the bits of a constant, and the rest of a narrowed result.
#![tactic(auto)]

ghost use Rattle.std.specs.Prelude.{◌≡◌, ◌++◌, ℕ, ◌+◌, ◌-◌, ◌/◌, ◌%◌, ◌^◌, ◌≤◌, min, length, take, drop, replicate};
ghost use Rattle.spec_rtl.specs.Word.{bits};
ghost use Rattle.spec_rules.specs.Image.{list_word, constant_of};
ghost use Rattle.spec_model.specs.Builder.{each, add_constant};
ghost use Rattle.net_view.specs.View.{netlist_of};
ghost use Rattle.net_index.specs.Index.{Held};
ghost use Rattle.net_fold.specs.Digits.{held};
ghost use Rattle.net_fold.specs.Values.{Fills};
ghost use Rattle.walk_operands.specs.Tasks.{Fits};
ghost use Rattle.walk_job_parts.specs.Widths.{made_width, extended};

use net_nodes::Full;
use walk_operands::Task;

// Bit b of the constant whose list words begin at start.
fn constant_bit(image: &[u8], start: u32, b: u32) -> u32
    requires { (start ≤ 8192) × (b ≤ 1024) }
    ensures { result ≡ list_word image.now (start + b / 32) / 2 ^ (b % 32) % 2 }
{
    let x = image_fields::list_word(image, start + b / 32);
    (x >> (b % 32)) % 2
}

// Bits of a constant from bit lsb on.
fn put_bits(image: &[u8], start: u32, lsb: u32, out: &mut [u32])
    requires { (start ≤ 8192) × (lsb + length out.old ≤ 1024) }
    ensures { (v : ℕ) → lsb + length out.old ≤ v → held out.new ≡ take (length out.old) (drop lsb (bits v (constant_of image.now v start))) }
{
    for (i, x) in out.iter_mut().enumerate() {
        *x = constant_bit(image, start, lsb + i as u32);
    }
}

fn add_constant_bits(
    image: &[u8],
    net: &mut [u32],
    idx: &mut [u32],
    n: u32,
    start: u32,
    lsb: u32,
    out: &mut [u32],
) -> Result<(), Full>
    requires { (Held n net.old idx.old) × (start ≤ 8192) × (lsb + length out.old ≤ 1024) }
    ensures { (v : ℕ) → lsb + length out.old ≤ v → Fills (each add_constant (take (length out.old) (drop lsb (bits v (constant_of image.now v start)))) (netlist_of n net.old)) n result out.new net.new idx.new }
{
    put_bits(image, start, lsb, out);
    net_fold::add_constants(net, idx, n, out)
}

// At most w bits, from bit lsb on, of a constant of width v.
pub fn constant(
    image: &[u8],
    net: &mut [u32],
    idx: &mut [u32],
    n: u32,
    start: u32,
    v: u32,
    lsb: u32,
    w: u32,
    xs: &mut [u32],
) -> Result<(), Full>
    requires { (Held n net.old idx.old) × (start ≤ 8192) × (lsb ≤ v) × (v ≤ 1024) × (w ≤ length xs.old) }
    ensures { Fills (each add_constant (take w (drop lsb (bits v (constant_of image.now v start)))) (netlist_of n net.old)) n result (take (min w (v - lsb)) xs.new) net.new idx.new }
{
    let m = w.min(v - lsb) as usize;
    add_constant_bits(image, net, idx, n, start, lsb, &mut xs[..m])
}

// The first m nets, and the false constant up to w.
pub fn extend(
    net: &mut [u32],
    idx: &mut [u32],
    n: u32,
    m: u32,
    w: u32,
    xs: &mut [u32],
) -> Result<(), Full>
    requires { (Held n net.old idx.old) × (m ≤ w) × (w ≤ length xs.old) }
    ensures { Fills (extended w (take m xs.old) (netlist_of n net.old)) n result (take w xs.new) net.new idx.new }
{
    let z = net_gates::add_constant(net, idx, n, false)?;
    xs[m as usize..w as usize].fill(z);
    Ok(())
}

// How many nets a task of width v makes in a job of width w.
pub fn task_width(task: Task, v: u32, w: u32) -> u32
    requires { Fits 1024 v task }
    ensures { result ≡ made_width v w task }
{
    match task {
        Task::Copied => w,
        Task::Constant(_, k, lsb) => w.min(k - lsb),
        Task::Unary(_, _) => v,
        Task::Binary(_, _, _) => v,
        Task::Carried(_, _) => v,
        Task::Mux(_) => w,
    }
}
