// The opening of a trace: the judgement of its netlist image by refusals 11 and 12, and the tables of the run.
#![tactic(auto)]

ghost use Rattle.std.specs.Prelude.{◌≡◌, ◌*◌, ◌≤◌, length, take, replicate};
ghost use Rattle.spec_trace.specs.Opened.{words_of};
ghost use Rattle.trace_image.specs.Whole.{image_words};
ghost use Rattle.trace_open.specs.Opens.{Opens};

use trace_image::Refusal;
use trace_line::Tables;
use trace_pass::Step;

// An image's words, for 1,024 nets and 2,048 list words.
pub fn image_table() -> [u32; 8208]
    ensures { 8208 ≡ length result }
{
    [0; 8208]
}

// The steps of a plan.
pub fn step_table() -> [Step; 1024]
    ensures { 1024 ≡ length result }
{
    [Step::Arithmetic { place: 0 }; 1024]
}

// A word for each list word.
pub fn list_table() -> [u32; 2048]
    ensures { 2048 ≡ length result }
{
    [0; 2048]
}

// A word for each net: its value.
pub fn value_table() -> [u32; 1024]
    ensures { result ≡ replicate 1024 0 }
{
    [0; 1024]
}

// A word for each memory bit.
pub fn memory_table() -> [u32; 65536]
    ensures { result ≡ replicate 65536 0 }
{
    [0; 65536]
}

// Four names: the number of each, 0 where a place is free.
pub fn name_table() -> [u64; 4]
    ensures { result ≡ replicate 4 0 }
{
    [0; 4]
}

// Four moments of a run: a word for each net and each memory bit.
pub fn kept_table() -> [u32; 266240]
    ensures { 266240 ≡ length result }
{
    [0; 266240]
}

// How many words the image has that these bytes begin with, by its first sixteen; net is lent.
pub fn words_by_header(input: &[u8], net: &mut [u32]) -> usize
    requires { 8208 ≤ length net.old }
    ensures { result ≡ image_words 1024 2048 (take 16 (words_of input.now)) }
{
    let words = trace_image::read_words(image_fields::stretch(input, 0, 64), net);
    trace_image::image_words(words)
}

// So many words of an image, or as many as are there, at the front of a lent table.
pub fn read_image<'a>(input: &[u8], words: usize, net: &'a mut [u32]) -> &'a [u32]
    requires { (words ≤ 8208) × (8208 ≤ length net.old) }
    ensures { result.now ≡ take words (words_of input.now) }
{
    trace_image::read_words(image_fields::stretch(input, 0, 4 * words), net)
}

// The image's judgement, and its tables.
pub fn open<'a>(
    net: &'a [u32],
    steps: &'a mut [Step],
    inputs: &'a mut [u32],
    outputs: &'a mut [u32],
    registers: &'a mut [u32],
    memories: &'a mut [u32],
) -> Result<Tables<'a>, Refusal>
    requires { (1024 ≤ length steps.old) × (2048 ≤ length inputs.old) × (2048 ≤ length outputs.old) × (2048 ≤ length registers.old) × (2048 ≤ length memories.old) }
    ensures { Opens net.now result }
{
    match trace_image::judge(net) {
        Ok(()) => {
            let tables = trace_tables::prepare(net, steps, inputs, outputs, registers, memories);
            tables.ok_or(Refusal::Unfit)
        }
        Err(Refusal::Wrong(p)) => Err(Refusal::Wrong(p)),
        Err(Refusal::Unfit) => Err(Refusal::Unfit),
    }
}
