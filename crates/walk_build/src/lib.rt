// What an expression, or a range of it, is made of once its operands are lowered: they are read from the tables, the nets are made, and
// the tables keep them. Follows the ends of `lower_expression` and `lower_expression_range` of struo-synth.
#![tactic(auto)]

ghost use Rattle.std.specs.Prelude.{◌≡◌, ◌+◌, ◌≤◌, ◌<◌, length, take};
ghost use Rattle.spec_rules.specs.Image.{count_at_of, expr_width};
ghost use Rattle.net_view.specs.View.{netlist_of};
ghost use Rattle.net_gates.specs.Nots.{PlainNots};
ghost use Rattle.scratch_view.specs.View.{limit_of};
ghost use Rattle.walk_operands.specs.Tasks.{job_made, JobFits};
ghost use Rattle.walk_operands.specs.AskedWhole.{Room};
ghost use Rattle.walk_view.specs.View.{Ready, Sure};
ghost use Rattle.walk_build.specs.Built.{Performed, WholeMet, RangeMet, BuildsWhole, BuildsRange};

use net_nodes::Full;
use walk_operands::Job;
use walk_view::Refusal;

// What a job makes of the nets read; the index is a part of the scratch.
fn make(
    image: &[u8],
    net: &mut [u32],
    scr: &mut [u32],
    job: Job,
    w: u32,
    xs: &mut [u32],
    ys: &[u32],
) -> Result<(), Full>
    requires { (Ready image.now net.old scr.old) × (JobFits (length xs.old) w job) × (length xs.old ≤ 1024) × (length ys.now ≡ length xs.old) × (PlainNots (netlist_of (limit_of scr.old) net.old)) }
    ensures { Performed (job_made image.now w job xs.old ys.now (netlist_of (limit_of scr.old) net.old)) image.now net.old scr.old result (take w xs.new) net.new scr.new }
{
    let n = scr[scratch_view::LIMIT];
    let end = scratch_view::FIXED + 4 * (n as usize);
    walk_perform::perform(
        image,
        net,
        &mut scr[scratch_view::FIXED..end],
        n,
        job,
        w,
        xs,
        ys,
    )
}

// A whole expression, made in two lists.
fn whole_in(
    image: &[u8],
    net: &mut [u32],
    scr: &mut [u32],
    e: u32,
    xs: &mut [u32],
    ys: &mut [u32],
) -> Result<(), Refusal>
    requires { (Ready image.now net.old scr.old) × (Sure image.now net.old scr.old) × (e < count_at_of image.now 1) × (WholeMet image.now net.old scr.old e) × (Room image.now (length xs.old) e) × (length xs.old ≤ 1024) × (length ys.old ≡ length xs.old) }
    ensures { BuildsWhole image.now net.old scr.old e result net.new scr.new }
{
    let w = image_fields::expr_width(image, e);
    let job = walk_operands::read_whole(image, scr, e, xs, ys);
    let made = make(image, net, scr, job, w, xs, ys);
    walk_keep::keep_whole(image, scr, e, &xs[..w as usize], made)
}

// An expression of which each list of nets is at most N long.
fn whole_sized<const N: usize>(
    image: &[u8],
    net: &mut [u32],
    scr: &mut [u32],
    e: u32,
) -> Result<(), Refusal>
    requires { (Ready image.now net.old scr.old) × (Sure image.now net.old scr.old) × (e < count_at_of image.now 1) × (WholeMet image.now net.old scr.old e) × (Room image.now N e) × (N ≤ 1024) }
    ensures { BuildsWhole image.now net.old scr.old e result net.new scr.new }
{
    let mut xs = [0u32; N];
    let mut ys = [0u32; N];
    whole_in(image, net, scr, e, &mut xs, &mut ys)
}

pub fn build_whole(image: &[u8], net: &mut [u32], scr: &mut [u32], e: u32) -> Result<(), Refusal>
    requires { (Ready image.now net.old scr.old) × (Sure image.now net.old scr.old) × (e < count_at_of image.now 1) × WholeMet image.now net.old scr.old e }
    ensures { BuildsWhole image.now net.old scr.old e result net.new scr.new }
{
    if walk_operands::is_narrow(image, e) {
        return whole_sized::<64>(image, net, scr, e);
    }
    whole_sized::<1024>(image, net, scr, e)
}

// A range of an expression, made in two lists.
fn range_in(
    image: &[u8],
    net: &mut [u32],
    scr: &mut [u32],
    e: u32,
    lsb: u32,
    w: u32,
    xs: &mut [u32],
    ys: &mut [u32],
) -> Result<(), Refusal>
    requires { (Ready image.now net.old scr.old) × (Sure image.now net.old scr.old) × (e < count_at_of image.now 1) × (1 ≤ w) × (lsb + w ≤ expr_width image.now e) × (RangeMet image.now net.old scr.old e lsb w) × (w ≤ length xs.old) × (length xs.old ≤ 1024) × (length ys.old ≡ length xs.old) }
    ensures { BuildsRange image.now net.old scr.old e lsb w result net.new scr.new }
{
    let job = walk_operands::read_range(image, scr, e, lsb, w, xs, ys);
    let made = make(image, net, scr, job, w, xs, ys);
    walk_keep::keep_range(image, scr, e, lsb, &xs[..w as usize], made)
}

// A range of at most N bits.
fn range_sized<const N: usize>(
    image: &[u8],
    net: &mut [u32],
    scr: &mut [u32],
    e: u32,
    lsb: u32,
    w: u32,
) -> Result<(), Refusal>
    requires { (Ready image.now net.old scr.old) × (Sure image.now net.old scr.old) × (e < count_at_of image.now 1) × (1 ≤ w) × (lsb + w ≤ expr_width image.now e) × (RangeMet image.now net.old scr.old e lsb w) × (w ≤ N) × (N ≤ 1024) }
    ensures { BuildsRange image.now net.old scr.old e lsb w result net.new scr.new }
{
    let mut xs = [0u32; N];
    let mut ys = [0u32; N];
    range_in(image, net, scr, e, lsb, w, &mut xs, &mut ys)
}

pub fn build_range(
    image: &[u8],
    net: &mut [u32],
    scr: &mut [u32],
    e: u32,
    lsb: u32,
    w: u32,
) -> Result<(), Refusal>
    requires { (Ready image.now net.old scr.old) × (Sure image.now net.old scr.old) × (e < count_at_of image.now 1) × (1 ≤ w) × (lsb + w ≤ expr_width image.now e) × RangeMet image.now net.old scr.old e lsb w }
    ensures { BuildsRange image.now net.old scr.old e lsb w result net.new scr.new }
{
    if w <= 64 {
        return range_sized::<64>(image, net, scr, e, lsb, w);
    }
    range_sized::<1024>(image, net, scr, e, lsb, w)
}
