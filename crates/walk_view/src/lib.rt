// Why the walk stops. What its functions hold between calls, and what each call gives, is in specs/.
#![tactic(auto)]

ghost use Rattle.std.specs.Prelude.{◌≡◌};
ghost use Rattle.walk_view.specs.Refusals.{refusal_of};

use net_nodes::Full;

// A refusal with its place: 6, 7, 8, 9, 10.
#[derive(Clone, Copy)]
pub enum Refusal {
    Undriven(u32, u32),
    Loop(u32, u32),
    Reset(u32, u32),
    TooManyNets,
    ListFull,
}

impl From<Full> for Refusal {
    ghost from_gives = { λ f e. e ≡ refusal_of f };

    fn from(full: Full) -> Refusal {
        match full {
            Full::Nets => Refusal::TooManyNets,
            Full::List => Refusal::ListFull,
        }
    }
}
