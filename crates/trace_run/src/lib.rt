// The lines among some bytes of a trace, taken one after the other while there is room for a line's text or a refusal's.
#![tactic(auto)]

ghost use Rattle.std.specs.Prelude.{◌≡◌, not, ◌+◌, ◌≤◌, length, take, drop};
ghost use Rattle.spec_tests.specs.Rules.{◌<?◌};
ghost use Rattle.listing_text.specs.Text.{Wrote};
ghost use Rattle.trace_line.specs.Bundles.{SameTables};
ghost use Rattle.trace_keep.specs.Bundles.{SameKept};
ghost use Rattle.trace_answer.specs.Bundles.{Runs};
ghost use Rattle.trace_run.specs.Ran.{roomy, Stopped};
ghost use Rattle.trace_run.specs.Held.{end_text};
ghost use Rattle.trace_run.specs.Bundles.{RanBy, wait_of, stop_of};

use trace_keep::Moments;
use trace_line::{State, Tables};
use trace_lines::Progress;

// Why no more lines were taken: there may be no room for the next one's text; it must still come; or the text is the last.
#[derive(Clone, Copy)]
pub enum End {
    Full,
    Wait,
    Last,
}

// How many bytes are used up, where the text ends, the next line's number, and why no more were taken.
#[derive(Clone, Copy)]
pub struct Run {
    pub used: usize,
    pub at: usize,
    pub line: u32,
    pub end: End,
}

// A line of n characters and its end fit in from a place on, and so does a refusal.
fn has_room(out: &[u8], at: usize, n: usize) -> bool
    requires { at ≤ length out.now }
    ensures { result ≡ roomy out.now at n }
{
    if out.len() - at < 42 {
        return false;
    }
    if out.len() - at - 42 < n {
        return false;
    }
    true
}

// Lines from line k on.
pub fn take_lines(
    tables: &Tables,
    state: &mut State,
    kept: &mut Moments,
    k: u32,
    bytes: &[u8],
    out: &mut [u8],
) -> Run
    requires { Runs tables.now k state.old kept.old }
    ensures same { SameTables state.old state.new × SameKept kept.old kept.new }
    ensures ran { RanBy tables.now k bytes.now state.old kept.old result.used result.at result.line (wait_of result.end) (stop_of result.end) out.new state.new kept.new }
    ensures stopped { Stopped out.new result.at (length tables.now.outputs.now) (wait_of result.end) (stop_of result.end) }
{
    let mut used: usize = 0;
    let mut at: usize = 0;
    let mut line = k;
    'lines: while has_room(out, at, tables.outputs.len()) {
        match trace_lines::next_line(tables, state, kept, line, &bytes[used..], out, at) {
            Err(last) => {
                return Run {
                    used,
                    at: last.at,
                    line,
                    end: End::Last,
                };
            }
            Ok(Progress::Wait) => {
                return Run {
                    used,
                    at,
                    line,
                    end: End::Wait,
                };
            }
            Ok(Progress::Line { used: n, at: to }) => {
                used += n;
                at = to;
                line += 1;
            }
        }
    }
    Run {
        used,
        at,
        line,
        end: End::Full,
    }
}

// Moves n bytes from a place on to the front.
pub fn move_down(bytes: &mut [u8], from: usize, n: usize)
    requires { from + n ≤ length bytes.old }
    ensures { (take n bytes.new ≡ take n (drop from bytes.old)) × (length bytes.new ≡ length bytes.old) }
{
    bytes.copy_within(from..from + n, 0);
}

// At the input's end: where bytes are left, refuses the line that they are. The next place.
pub fn put_end(out: &mut [u8], at: usize, left: usize, k: u32) -> usize
    requires { at ≤ length out.old }
    ensures { Wrote out.old at (end_text left k) out.new result }
{
    if left == 0 {
        return at;
    }
    listing_text::put_refusal(out, at, 13, k, 0)
}
