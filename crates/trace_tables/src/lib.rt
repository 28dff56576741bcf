// The tables of a run: the plan of an accepted netlist, its ports' nets, the places of its registers and memories, at the front of lent slices.
#![tactic(auto)]

ghost use Rattle.std.specs.Prelude.{◌≡◌, true, ◌≤◌, length, MatchOption};
ghost use Rattle.spec_tests.specs.Rules.{Fine};
ghost use Rattle.spec_netlist.specs.Accept.{nets, used, accepts};
ghost use Rattle.spec_trace.specs.Opened.{unfit, nets_with};
ghost use Rattle.trace_pass.specs.Coded.{words_of};
ghost use Rattle.trace_pass.specs.Plan.{Plan};
ghost use Rattle.trace_tables.specs.Bundles.{ReadyAs};

use trace_line::Tables;
use trace_pass::Step;

// The plan.
fn plan<'a>(net: &[u32], steps: &'a mut [Step]) -> &'a [Step]
    requires { (accepts net.now ≡ Fine) × (nets net.now ≤ 1024) × (used net.now ≤ 2048) × (1024 ≤ length steps.old) }
    ensures { Plan net.now (words_of result.now) (length result.now) }
{
    let mut cells: [u32; 2048] = [0; 2048];
    let cells = trace_walk::places(net, 3, &mut cells);
    let mut comparisons: [u32; 2048] = [0; 2048];
    let comparisons = trace_walk::places(net, 4, &mut comparisons);
    let mut due: [u32; 1024] = [0; 1024];
    trace_plan::make_plan(net, cells, comparisons, &mut due, steps)
}

// The nets of the ports of a kind.
fn nets_of<'a>(net: &[u32], kind: u32, out: &'a mut [u32]) -> &'a [u32]
    requires { (accepts net.now ≡ Fine) × (used net.now ≤ 2048) × (2048 ≤ length out.old) }
    ensures { result.now ≡ nets_with kind net.now }
{
    let mut ports: [u32; 2048] = [0; 2048];
    let ports = trace_walk::places(net, 0, &mut ports);
    trace_ports::port_nets(net, ports, kind, out)
}

// All of them, where the netlist is one for the trace program.
pub fn prepare<'a>(
    net: &'a [u32],
    steps: &'a mut [Step],
    inputs: &'a mut [u32],
    outputs: &'a mut [u32],
    registers: &'a mut [u32],
    memories: &'a mut [u32],
) -> Option<Tables<'a>>
    requires { (accepts net.now ≡ Fine) × (nets net.now ≤ 1024) × (used net.now ≤ 2048) × (1024 ≤ length steps.old) × (2048 ≤ length inputs.old) × (2048 ≤ length outputs.old) × (2048 ≤ length registers.old) × (2048 ≤ length memories.old) }
    ensures { MatchOption result (unfit 65536 net.now ≡ true) (λ t. ReadyAs net.now t) }
{
    let registers = trace_walk::places(net, 1, registers);
    let memories = trace_walk::places(net, 2, memories);
    if trace_fit::is_unfit(net, registers, memories) {
        return None;
    }
    Some(Tables {
        net,
        steps: plan(net, steps),
        inputs: nets_of(net, 0, inputs),
        outputs: nets_of(net, 8, outputs),
        registers,
        memories,
    })
}
