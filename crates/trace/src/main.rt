// The trace program: reads a netlist image and a trace from standard input, and prints the output bits after each line, or the refusal. What it
// prints is made by proved functions, and a turn of its loop is one of the calls that write the text (`Turned`); that the bytes are those of standard
// input, and that the text goes to standard output, is said here alone.
#![tactic(auto)]

ghost use Rattle.std.specs.Prelude.{◌≡◌, ◌+◌, ◌-◌, ◌≤◌, ◌<◌, not, length, IfSome};
ghost use Rattle.spec_tests.specs.Rules.{◌and◌};
ghost use Rattle.trace_run.specs.Bundles.{stop_of};
ghost use Rattle.trace_answer.specs.Bundles.{Runs};
ghost use Rattle.trace_open.specs.Begins.{FreshBy};
ghost use Rattle.trace.specs.Turn.{held, Came};
ghost use Rattle.trace.specs.Bundles.{TurnedBy};

use std::io::Read;
use std::rt::Stdin;
use trace_image::Refusal;
use trace_keep::Moments;
use trace_line::{State, Tables};
use trace_run::End;

// Where the bytes that were read and are not used up begin and end in their buffer, and the next line's number.
#[derive(Clone, Copy)]
struct Held {
    from: usize,
    end: usize,
    line: u32,
}

// As many bytes as an image has at most.
fn image_bytes() -> [u8; 32832]
    ensures { 32832 ≡ length result }
{
    [0; 32832]
}

// Prints a refusal.
fn refuse(number: u32, place: u32) {
    let mut out = io::buffer();
    let end = listing_text::put_refusal(&mut out, 0, number, place, 0);
    io::write_all(1, image_fields::stretch(&out, 0, end));
}

// Reads up to a place into the bytes from another on; where those that are there then end.
fn read_up_to(bytes: &mut [u8], from: usize, to: usize) -> usize
    requires { to ≤ length bytes.old }
{
    if to <= from {
        return from;
    }
    from + io::read_full(0, &mut bytes[from..to])
}

// Reads the image: sixteen words, and as many more as these say.
fn read_image<'a>(bytes: &mut [u8], net: &'a mut [u32]) -> &'a [u32]
    requires { (32832 ≤ length bytes.old) × (8208 ≤ length net.old) }
{
    let first = read_up_to(bytes, 0, 64);
    let words = trace_open::words_by_header(image_fields::stretch(bytes, 0, first), net);
    let all = read_up_to(bytes, first, 4 * words);
    trace_open::read_image(image_fields::stretch(bytes, 0, all), words, net)
}

// At the input's end: refuses the line that the bytes left are, if there are any.
fn end(left: usize, line: u32) {
    let mut out = io::buffer();
    let to = trace_run::put_end(&mut out, 0, left, line);
    io::write_all(1, image_fields::stretch(&out, 0, to));
}

// Reads what standard input gives now, into lent bytes; how many came, 0 at its end or where it fails.
fn read_some(mut stdin: Stdin, bytes: &mut [u8]) -> usize
    ensures { result ≤ length bytes.new }
{
    match stdin.read(bytes) {
        Ok(came) => came,
        Err(_) => 0,
    }
}

// The bytes held move to the front, and more are read behind them; at the input's end none are held any more.
fn read_more(stdin: Stdin, h: Held, bytes: &mut [u8]) -> Option<Held>
    requires { (h.from ≤ h.end) × (h.end ≤ length bytes.old) × (h.end - h.from < length bytes.old) }
    ensures { IfSome result (λ r. (r.line ≡ h.line) × (r.from ≤ r.end) × (r.end ≤ length bytes.new) × Came (held bytes.old h.from h.end) (held bytes.new r.from r.end)) }
{
    let n = h.end - h.from;
    trace_run::move_down(bytes, h.from, n);
    let more = read_some(stdin, &mut bytes[n..]);
    if more == 0 {
        end(n, h.line);
        return None;
    }
    Some(Held {
        from: 0,
        end: n + more,
        line: h.line,
    })
}

// The run goes on where its text was printed and is not the last.
fn goes_on(written: bool, end: End) -> bool
    ensures { result ≡ (written and not (stop_of end)) }
{
    if written {
        return !matches!(end, End::Last);
    }
    false
}

// Takes the lines among the bytes held and prints their text; reads on where the next line must still come. None where the run ends: the
// text was the last, it could not be printed, or no more bytes come.
fn turn(
    stdin: Stdin,
    tables: &Tables,
    state: &mut State,
    kept: &mut Moments,
    h: Held,
    bytes: &mut [u8],
    out: &mut [u8],
) -> Option<Held>
    requires { Runs tables.now h.line state.old kept.old × (h.from ≤ h.end) × (h.end ≤ length bytes.old) × (length tables.now.inputs.now + 13 < length bytes.old) }
    ensures { IfSome result (λ r. Runs tables.now r.line state.new kept.new × (r.from ≤ r.end) × (r.end ≤ length bytes.new) × TurnedBy tables.now h.line (held bytes.old h.from h.end) state.old kept.old r.line (held bytes.new r.from r.end) state.new kept.new) }
{
    let from = h.from;
    let end = h.end;
    let r = trace_run::take_lines(tables, state, kept, h.line, &bytes[from..end], out);
    let written = io::write_all(1, image_fields::stretch(out, 0, r.at));
    if !goes_on(written, r.end) {
        return None;
    }
    let next = Held {
        from: from + r.used,
        end,
        line: r.line,
    };
    match r.end {
        End::Wait => read_more(stdin, next, bytes),
        End::Full | End::Last => Some(next),
    }
}

// The lines of a trace. A proved loop has to end, and nothing says that a trace does: so it takes as many turns as no run uses up.
fn run(
    stdin: Stdin,
    tables: &Tables,
    state: &mut State,
    kept: &mut Moments,
    bytes: &mut [u8],
    out: &mut [u8],
)
    requires { Runs tables.now 0 state.old kept.old × (length tables.now.inputs.now + 13 < length bytes.old) }
{
    let mut h = Held {
        from: 0,
        end: 0,
        line: 0,
    };
    for _ in 0..u64::MAX {
        let Some(next) = turn(stdin, tables, state, kept, h, bytes, out) else {
            break;
        };
        h = next;
    }
}

// A trace, by the tables of an image.
fn take_trace(stdin: Stdin, tables: &Tables)
    requires { FreshBy tables.now × (length tables.now.inputs.now ≤ 2048) }
{
    let mut values = trace_open::value_table();
    let mut before = trace_open::value_table();
    let mut memory = trace_open::memory_table();
    let mut state = State {
        values: &mut values,
        before: &mut before,
        memory: &mut memory,
    };
    let mut names = trace_open::name_table();
    let mut slots = trace_open::kept_table();
    let mut kept = Moments {
        names: &mut names,
        slots: &mut slots,
    };
    let mut bytes = io::large_buffer();
    let mut out = io::large_buffer();
    run(stdin, tables, &mut state, &mut kept, &mut bytes, &mut out);
}

// Refuses an image, or takes its trace.
fn start(stdin: Stdin, net: &[u32]) {
    let mut steps = trace_open::step_table();
    let mut inputs = trace_open::list_table();
    let mut outputs = trace_open::list_table();
    let mut registers = trace_open::list_table();
    let mut memories = trace_open::list_table();
    match trace_open::open(
        net,
        &mut steps,
        &mut inputs,
        &mut outputs,
        &mut registers,
        &mut memories,
    ) {
        Ok(tables) => take_trace(stdin, &tables),
        Err(Refusal::Wrong(p)) => refuse(11, p),
        Err(Refusal::Unfit) => refuse(12, 0),
    }
}

fn main(rt: HostRuntime) {
    let mut bytes = image_bytes();
    let mut table = trace_open::image_table();
    let net = read_image(&mut bytes, &mut table);
    start(rt.stdin(), net);
}
