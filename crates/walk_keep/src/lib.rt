// The nets that were made for an expression, or for a range of it, kept in the tables.
#![tactic(auto)]

ghost use Rattle.std.specs.Prelude.{◌≡◌, ◌+◌, ◌≤◌, ◌<◌, length};
ghost use Rattle.spec_rules.specs.Image.{count_at_of, expr_width};
ghost use Rattle.spec_model.specs.Lowering as model;
ghost use Rattle.scratch_view.specs.View.{Laid};
ghost use Rattle.scratch_tables.specs.Answers.{Small};
ghost use Rattle.walk_keep.specs.Keeps.{Keeps};

use net_nodes::Full;
use walk_view::Refusal;

// The nets made are those of the whole expression.
pub fn keep_whole(
    image: &[u8],
    scr: &mut [u32],
    e: u32,
    nets: &[u32],
    made: Result<(), Full>,
) -> Result<(), Refusal>
    requires { (Laid image.now scr.old) × (e < count_at_of image.now 1) × (length nets.now ≡ expr_width image.now e) × (made ≡ Ok tt → Small (length nets.now) nets.now) }
    ensures { Keeps (λ st. model.set_whole st e nets.now) image.now scr.old made result scr.new }
{
    made?;
    scratch_tables::keep_whole(image, scr, e, nets);
    Ok(())
}

// The nets made are those of a range of the expression, from bit lsb on.
pub fn keep_range(
    image: &[u8],
    scr: &mut [u32],
    e: u32,
    lsb: u32,
    nets: &[u32],
    made: Result<(), Full>,
) -> Result<(), Refusal>
    requires { (Laid image.now scr.old) × (e < count_at_of image.now 1) × (lsb + length nets.now ≤ expr_width image.now e) × (made ≡ Ok tt → Small (length nets.now) nets.now) }
    ensures { Keeps (λ st. model.set_range st e lsb nets.now) image.now scr.old made result scr.new }
{
    made?;
    scratch_tables::keep_range(image, scr, e, lsb, nets);
    Ok(())
}
