// One line of a trace answered: settings are judged, taken and printed; a keep or a back prints nothing.
#![tactic(auto)]

ghost use Rattle.std.specs.Prelude.{◌≡◌, true, ◌≤◌, length};
ghost use Rattle.spec_tests.specs.Rules.{◌≢?◌, ◌or◌, ◌and◌};
ghost use Rattle.spec_trace.specs.Opened.{having};
ghost use Rattle.trace_line.specs.Bundles.{Stands, SameTables};
ghost use Rattle.trace_keep.specs.Bundles.{SameKept};
ghost use Rattle.trace_answer.specs.Settings.{Refuses};
ghost use Rattle.trace_answer.specs.Bundles.{Runs, SettlesOr, AnswersOr, AnswersBy, number_of, place_of, end_of, stop_of};
ghost use Rattle.trace_answer.specs.declared.Refusal.TheVariants.{Name};

use trace_keep::{Moments, NameRefused};
use trace_line::{State, Tables};

// Why a line is refused: its form, 13; a write clash of this memory, 14; a keep or a back that can't be done, 15.
#[derive(Clone, Copy)]
pub enum Refusal {
    Line,
    Clash(u32),
    Name,
}

impl From<NameRefused> for Refusal {
    ghost from_gives = { λ _ r. r ≡ Name };

    fn from(_e: NameRefused) -> Refusal {
        Refusal::Name
    }
}

impl Refusal {
    fn number(self) -> u32
        ensures { result ≡ number_of self }
    {
        match self {
            Refusal::Line => 13,
            Refusal::Clash(_) => 14,
            Refusal::Name => 15,
        }
    }

    fn place(self) -> u32
        ensures { result ≡ place_of self }
    {
        match self {
            Refusal::Clash(memory) => memory,
            Refusal::Line => 0,
            Refusal::Name => 0,
        }
    }
}

// A refusal's text is written, and is the trace's last; where it ends.
#[derive(Clone, Copy)]
pub struct Last {
    pub at: usize,
}

// A letter other than '0' and '1'.
fn is_wrong_letter(b: u8) -> bool
    ensures { result ≡ (b ≢? 48 and b ≢? 49) }
{
    if b == b'0' {
        return false;
    }
    b != b'1'
}

// A line has one.
fn has_wrong_letter(line: &[u8]) -> bool
    ensures { result ≡ having (λ b. b ≢? 48 and b ≢? 49) line.now }
{
    line.iter().any(|b| is_wrong_letter(*b))
}

// A line is of another length, or has another letter.
fn is_wrong(line: &[u8], inputs: usize) -> bool
    ensures { result ≡ (length line.now ≢? inputs or having (λ b. b ≢? 48 and b ≢? 49) line.now) }
{
    if line.len() != inputs {
        return true;
    }
    has_wrong_letter(line)
}

// Refusal n at line k and place x.
pub fn refuse(out: &mut [u8], at: usize, n: u32, k: u32, x: u32) -> Last
    requires { at ≤ length out.old }
    ensures { Refuses n k x out.old at out.new result.at true }
{
    Last {
        at: listing_text::put_refusal(out, at, n, k, x),
    }
}

// Line k, settings: its output bits.
fn settings_line(
    tables: &Tables,
    state: &mut State,
    k: u32,
    line: &[u8],
    out: &mut [u8],
    at: usize,
) -> Result<usize, Refusal>
    requires { Stands tables.now k state.old × (at ≤ length out.old) }
    ensures same { SameTables state.old state.new }
    ensures settles { SettlesOr tables.now k line.now out.old at state.old result out.new state.new }
{
    if is_wrong(line, tables.inputs.len()) {
        return Err(Refusal::Line);
    }
    if let Err(clash) = trace_line::take_line(tables, state, k, line) {
        return Err(Refusal::Clash(clash.memory));
    }
    let values = &mut *state.values;
    Ok(trace_line::print_nets(tables.outputs, values, out, at))
}

// Line k, whatever it is.
fn answer_line(
    tables: &Tables,
    state: &mut State,
    kept: &mut Moments,
    k: u32,
    line: &[u8],
    out: &mut [u8],
    at: usize,
) -> Result<usize, Refusal>
    requires { Runs tables.now k state.old kept.old × (at ≤ length out.old) }
    ensures same { SameTables state.old state.new × SameKept kept.old kept.new }
    ensures answers { AnswersOr tables.now k line.now out.old at state.old kept.old result out.new state.new kept.new }
{
    if trace_names::is_named(line, b"keep ") {
        let values = &mut *state.values;
        let memory = &mut *state.memory;
        trace_keep::keep(tables, values, memory, kept, k, image_fields::part(line, 5))?;
        return Ok(at);
    }
    if trace_names::is_named(line, b"back ") {
        let values = &mut *state.values;
        let memory = &mut *state.memory;
        let names = &mut *kept.names;
        let slots = &mut *kept.slots;
        trace_keep::back(
            tables,
            values,
            memory,
            names,
            slots,
            k,
            image_fields::part(line, 5),
        )?;
        return Ok(at);
    }
    settings_line(tables, state, k, line, out, at)
}

// Line k and its text: where that ends.
pub fn any_line(
    tables: &Tables,
    state: &mut State,
    kept: &mut Moments,
    k: u32,
    line: &[u8],
    out: &mut [u8],
    at: usize,
) -> Result<usize, Last>
    requires { Runs tables.now k state.old kept.old × (at ≤ length out.old) }
    ensures same { SameTables state.old state.new × SameKept kept.old kept.new }
    ensures answers { AnswersBy tables.now k line.now out.old at state.old kept.old (end_of result) (stop_of result) out.new state.new kept.new }
{
    match answer_line(tables, state, kept, k, line, out, at) {
        Ok(to) => Ok(to),
        Err(refusal) => Err(refuse(out, at, refusal.number(), k, refusal.place())),
    }
}
