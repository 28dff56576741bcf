// List records of a netlist image: the list stands behind n nodes; the header counts its words and the records of each kind.
#![tactic(auto)]

ghost use Rattle.std.specs.Prelude.{◌≡◌, ◌+◌, ◌≤◌, length};
ghost use Rattle.std.proofs.lemmas.List.Edits.{sets};
ghost use Rattle.net_view.specs.View.{Formed, Built};
ghost use Rattle.net_nodes.specs.declared.Full.TheVariants.{List};
ghost use Rattle.net_records.specs.Pushes.{Pushes};

use image_numbers::*;
use net_nodes::Full;

// The record would pass the list's limit: refusal 10.
#[derive(Clone, Copy)]
pub struct ListFull;

impl From<ListFull> for Full {
    ghost from_gives = { λ _ e. e ≡ List };

    fn from(_full: ListFull) -> Full {
        Full::List
    }
}

// The words of r from a place on.
pub fn put_words(net: &mut [u32], at: usize, r: &[u32])
    requires { at + length r.now ≤ length net.old }
    ensures { net.new ≡ sets net.old at r.now }
{
    net_nodes::copy(&mut net[at..at + r.len()], r);
}

// A record, if there is room for it.
pub fn push_record(net: &mut [u32], n: u32, r: &[u32]) -> Result<(), ListFull>
    requires { (Built n net.old) × (Formed r.now) }
    ensures { Pushes r.now n result net.old net.new }
{
    let at = HEADER_LENGTH + NODE_LENGTH * (n as usize);
    let used = net[LIST_USED] as usize;
    if used + r.len() <= net.len() - at {
        let kind = r[0] as usize;
        let count = net[RECORD_COUNTS + kind];
        put_words(net, at + used, r);
        net[LIST_USED] = (used + r.len()) as u32;
        net[RECORD_COUNTS + kind] = count + 1;
        Ok(())
    } else {
        Err(ListFull)
    }
}
