// A write clash, both ports of a memory writing one word in a step, on tables of words: old has the values of all nets before it, new the new inputs.
#![tactic(auto)]

ghost use Rattle.std.specs.Prelude.{◌≡◌, ◌<◌, length, IfSome};
ghost use Rattle.spec_rules.specs.NetlistImage.{memory_of};
ghost use Rattle.spec_rules.specs.Step.{clashes, net_accesses};
ghost use Rattle.trace_step.specs.Words.{on};
ghost use Rattle.trace_clash.specs.Words.{Addressed, AllAddressed, clash_of, clash_number, lowest_clash};

// A netlist's memories have numbers below this.
const MEMORIES: u32 = 16;

// Both ports of the memory with this record write one word.
fn is_clash(r: &[u32], old: &[u32], new: &[u32]) -> bool
    requires { Addressed r.now }
    ensures { result ≡ clashes (net_accesses (on old.now) (on new.now) (memory_of r.now)) }
{
    if net_words::word_at(r, 5) != 2 {
        return false;
    }
    let first = net_words::part(r, 6);
    let second = net_words::part(r, 6 + net_words::port_length(first));
    if !trace_memory::is_writing(first, old, new) {
        return false;
    }
    if !trace_memory::is_writing(second, old, new) {
        return false;
    }
    let a = trace_memory::write_address(first, old);
    let b = trace_memory::write_address(second, old);
    if a != b {
        return false;
    }
    b < net_words::word_at(r, 2) as u64
}

// The number of the memory with this record, where its ports clash.
fn clash_number(r: &[u32], old: &[u32], new: &[u32]) -> Option<u32>
    requires { Addressed r.now }
    ensures { clash_of result ≡ clash_number old.now new.now r.now }
{
    if is_clash(r, old, new) {
        return Some(net_words::word_at(r, 1));
    }
    None
}

// The lowest memory whose ports clash, of those with records at these places.
pub fn lowest_clash(net: &[u32], places: &[u32], old: &[u32], new: &[u32]) -> Option<u32>
    requires { AllAddressed net.now places.now (length places.now) }
    ensures lowest { clash_of result ≡ lowest_clash net.now old.now new.now places.now (length places.now) }
    ensures memory { IfSome result (λ k. k < 16) }
{
    let mut lowest = MEMORIES;
    for place in places {
        let r = net_words::part(net, *place as usize);
        lowest = lowest.min(clash_number(r, old, new).unwrap_or(MEMORIES));
    }
    if lowest < MEMORIES {
        return Some(lowest);
    }
    None
}
