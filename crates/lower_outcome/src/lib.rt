// Why a call refuses, with the place, and the three numbers of its answer.
#![tactic(auto)]

ghost use Rattle.std.specs.Prelude.{◌≡◌};
ghost use Rattle.spec_call.specs.Call.{numbers_of};
ghost use Rattle.check_image.specs.Checked as checked;
ghost use Rattle.lower_outcome.specs.Answer.{refusal_of, answer_of, walk_refusal_of, end_of};

// A refusal with its place (docs/RULES.md): 1 to 10 in this order.
#[derive(Clone, Copy)]
pub enum Refusal {
    Limits,
    NetlistShort,
    Field(u32),
    Record(u32, u32),
    ScratchShort,
    Undriven(u32, u32),
    Loop(u32, u32),
    Reset(u32, u32),
    TooManyNets,
    ListFull,
}

// A check's refusal.
impl From<check_image::Refusal> for Refusal {
    ghost from_gives = { λ c e. refusal_of e ≡ checked.refusal_of c };

    fn from(refusal: check_image::Refusal) -> Refusal {
        match refusal {
            check_image::Refusal::Limits => Refusal::Limits,
            check_image::Refusal::NetlistShort => Refusal::NetlistShort,
            check_image::Refusal::Field(f) => Refusal::Field(f),
            check_image::Refusal::Record(k, r) => Refusal::Record(k, r),
            check_image::Refusal::ScratchShort => Refusal::ScratchShort,
        }
    }
}

// The walk's refusal.
impl From<walk_view::Refusal> for Refusal {
    ghost from_gives = { λ w e. refusal_of e ≡ walk_refusal_of w };

    fn from(refusal: walk_view::Refusal) -> Refusal {
        match refusal {
            walk_view::Refusal::Undriven(p, b) => Refusal::Undriven(p, b),
            walk_view::Refusal::Loop(p, b) => Refusal::Loop(p, b),
            walk_view::Refusal::Reset(k, b) => Refusal::Reset(k, b),
            walk_view::Refusal::TooManyNets => Refusal::TooManyNets,
            walk_view::Refusal::ListFull => Refusal::ListFull,
        }
    }
}

// The walk's answer, as the call's.
pub fn of_walk(walk: Result<(), walk_view::Refusal>) -> Result<(), Refusal>
    ensures { answer_of result ≡ end_of walk }
{
    match walk {
        Ok(()) => Ok(()),
        Err(refusal) => Err(refusal.into()),
    }
}

// The three numbers: the refusal's and its two places, 0 0 0 where nothing is refused.
#[tactic(auto, unfolding(spec_call::specs::Call::numbers_of))]
pub fn numbers(x: Result<(), Refusal>) -> [u32; 3]
    ensures { result ≡ numbers_of (answer_of x) }
{
    let Err(refusal) = x else {
        return [0, 0, 0];
    };
    match refusal {
        Refusal::Limits => [1, 0, 0],
        Refusal::NetlistShort => [2, 0, 0],
        Refusal::Field(f) => [3, f, 0],
        Refusal::Record(k, r) => [4, k, r],
        Refusal::ScratchShort => [5, 0, 0],
        Refusal::Undriven(p, b) => [6, p, b],
        Refusal::Loop(p, b) => [7, p, b],
        Refusal::Reset(r, b) => [8, r, b],
        Refusal::TooManyNets => [9, 0, 0],
        Refusal::ListFull => [10, 0, 0],
    }
}
