// The lines of a trace as its bytes come: the first whole line among some bytes is answered.
#![tactic(auto)]

ghost use Rattle.std.specs.Prelude.{◌≡◌, ◌≤◌, length};
ghost use Rattle.spec_tests.specs.Rules.{◌<?◌, ◌and◌};
ghost use Rattle.trace_line.specs.Bundles.{SameTables};
ghost use Rattle.trace_keep.specs.Bundles.{SameKept};
ghost use Rattle.trace_answer.specs.Bundles.{Runs};
ghost use Rattle.trace_lines.specs.Answers.{Waits};
ghost use Rattle.trace_lines.specs.Bundles.{Ends, AnsweredBy, used_of, to_of, stop_of, SomeUsed};

use trace_answer::Last;
use trace_keep::Moments;
use trace_line::{State, Tables};

// What became of some bytes: a line was done, so many of them are used up, and its text ends there; or its end must still come.
#[derive(Clone, Copy)]
pub enum Progress {
    Line { used: usize, at: usize },
    Wait,
}

// The first line end.
fn line_end(bytes: &[u8]) -> Option<usize>
    ensures { Ends bytes.now result }
{
    bytes.iter().position(|b| *b == b'\n')
}

// Bytes without a line end are more than a line has: a settings line one for each input, a keep or a back 13 at most.
fn is_long(n: usize, inputs: usize) -> bool
    ensures { result ≡ (inputs <? n and 13 <? n) }
{
    if inputs < n {
        return 13 < n;
    }
    false
}

// No line end is there: it must still come, unless there are more bytes than a line has; then the line is refused.
fn wait(n: usize, inputs: usize, out: &mut [u8], at: usize, k: u32) -> Result<Progress, Last>
    requires { at ≤ length out.old }
    ensures waits { Waits k n inputs out.old at out.new (used_of result) (to_of at result) (stop_of result) }
    ensures some { SomeUsed result }
{
    if is_long(n, inputs) {
        return Err(trace_answer::refuse(out, at, 13, k, 0));
    }
    Ok(Progress::Wait)
}

// The first line of these bytes, line k of the trace, and the text for it from a place of out on.
pub fn next_line(
    tables: &Tables,
    state: &mut State,
    kept: &mut Moments,
    k: u32,
    bytes: &[u8],
    out: &mut [u8],
    at: usize,
) -> Result<Progress, Last>
    requires { Runs tables.now k state.old kept.old × (at ≤ length out.old) }
    ensures same { SameTables state.old state.new × SameKept kept.old kept.new }
    ensures answered { AnsweredBy tables.now k bytes.now out.old at state.old kept.old (used_of result) (to_of at result) (stop_of result) out.new state.new kept.new }
    ensures some { SomeUsed result }
{
    let Some(end) = line_end(bytes) else {
        return wait(bytes.len(), tables.inputs.len(), out, at, k);
    };
    if k == u32::MAX {
        return Err(trace_answer::refuse(out, at, 13, k, 0));
    }
    let to = trace_answer::any_line(tables, state, kept, k, &bytes[..end], out, at)?;
    Ok(Progress::Line {
        used: end + 1,
        at: to,
    })
}
