// The trace program's text for an input in memory, in a lent buffer. It is whole where the buffer has 2,090 bytes to spare; else its start.
#![tactic(auto)]

ghost use Rattle.std.specs.Prelude.{◌+◌, length};
ghost use Rattle.spec_trace.specs.Trace.{said};
ghost use Rattle.spec_trace.specs.Named.{begun, text_from, program};
ghost use Rattle.trace_image.specs.Answer.{refusal_of};
ghost use Rattle.trace_open.specs.Begins.{FreshBy};
ghost use Rattle.trace_text.specs.Begins.{Begins};
ghost use Rattle.trace_text.specs.Input.{judged_text};

use trace_image::Refusal;
use trace_keep::Moments;
use trace_line::{State, Tables};
use trace_run::End;

// The text of a trace's lines.
fn lines_text(tables: &Tables, trace: &[u8], out: &mut [u8]) -> usize
    requires { FreshBy tables.now }
    ensures { Begins (length tables.now.outputs.now + 42) (text_from tables.now.net.now 0 begun trace.now) out.new result }
{
    let mut values = trace_open::value_table();
    let mut before = trace_open::value_table();
    let mut memory = trace_open::memory_table();
    let mut state = State {
        values: &mut values,
        before: &mut before,
        memory: &mut memory,
    };
    let mut names = trace_open::name_table();
    let mut slots = trace_open::kept_table();
    let mut kept = Moments {
        names: &mut names,
        slots: &mut slots,
    };
    let r = trace_run::take_lines(tables, &mut state, &mut kept, 0, trace, out);
    match r.end {
        End::Wait => trace_run::put_end(out, r.at, trace.len() - r.used, r.line),
        End::Full => r.at,
        End::Last => r.at,
    }
}

// The text of an image's refusal.
fn refusal_text(refusal: Refusal, out: &mut [u8]) -> usize
    ensures { Begins 2090 (said (refusal_of refusal)) out.new result }
{
    match refusal {
        Refusal::Wrong(p) => listing_text::put_refusal(out, 0, 11, p, 0),
        Refusal::Unfit => listing_text::put_refusal(out, 0, 12, 0, 0),
    }
}

// The text for an image, which is judged, and a trace.
fn judged_text(net: &[u32], trace: &[u8], out: &mut [u8]) -> usize
    ensures { Begins 2090 (judged_text net.now trace.now) out.new result }
{
    let mut steps = trace_open::step_table();
    let mut inputs = trace_open::list_table();
    let mut outputs = trace_open::list_table();
    let mut registers = trace_open::list_table();
    let mut memories = trace_open::list_table();
    match trace_open::open(
        net,
        &mut steps,
        &mut inputs,
        &mut outputs,
        &mut registers,
        &mut memories,
    ) {
        Ok(tables) => lines_text(&tables, trace, out),
        Err(refusal) => refusal_text(refusal, out),
    }
}

// The program's text.
pub fn text(input: &[u8], out: &mut [u8]) -> usize
    ensures { Begins 2090 (program input.now) out.new result }
{
    let mut net = trace_open::image_table();
    let words = trace_open::words_by_header(input, &mut net);
    let image = trace_open::read_image(input, words, &mut net);
    let trace = image_fields::stretch(input, 4 * words, input.len());
    judged_text(image, trace, out)
}
