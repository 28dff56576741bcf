// The netlist image at the front of the trace program's input: its words, its end by its header, and its judgement.
#![tactic(auto)]

ghost use Rattle.std.specs.Prelude.{◌≡◌, ◌-◌, ◌/◌, ◌≤◌, ◌<◌, length};
ghost use Rattle.spec_trace.specs.Opened.{words_of, other_limits, opened};
ghost use Rattle.trace_image.specs.declared.Refusal.TheVariants.{Wrong};
ghost use Rattle.trace_image.specs.Answer.{answer_of};
ghost use Rattle.trace_image.specs.Headed.{headed};
ghost use Rattle.trace_image.specs.Whole.{image_words};

use image_numbers::*;
use stored_check::WrongWord;

// A word is wrong, refusal 11; or the image is none for the trace program, refusal 12.
#[derive(Clone, Copy)]
pub enum Refusal {
    Wrong(u32),
    Unfit,
}

impl From<WrongWord> for Refusal {
    ghost from_gives = { λ w r. r ≡ Wrong w.0 };

    fn from(word: WrongWord) -> Refusal {
        Refusal::Wrong(word.0)
    }
}

// Bytes as words, four a word, low first, at the front of a lent table. A cut word counts as none.
pub fn read_words<'a>(bytes: &[u8], net: &'a mut [u32]) -> &'a [u32]
    requires { (length bytes.now / 4 ≤ length net.old) × (length bytes.now < 18446744073709551612) }
    ensures { result.now ≡ words_of bytes.now }
{
    let n = bytes.len() / 4;
    for i in 0..n {
        net[i] = image_fields::word(bytes, 4 * i);
    }
    &net[..n]
}

// N of a list offset.
fn limit_of(at: u32) -> u32
    ensures { result ≡ (at - 16) / 6 }
{
    if at < 16 {
        return 0;
    }
    (at - 16) / 6
}

// The sixteen words are there, and N is another or there are too many list words.
fn is_other(net: &[u32]) -> bool
    ensures { result ≡ other_limits 1024 2048 net.now }
{
    if net.len() < HEADER_LENGTH {
        return false;
    }
    if limit_of(net[LIST_AT]) != 1024 {
        return true;
    }
    2048 < net[LIST_USED]
}

// What the first sixteen words say.
fn judge_header(net: &[u32]) -> Result<(), Refusal>
    ensures { answer_of result ≡ headed 1024 2048 net.now }
{
    if let Some(i) = stored_header::first_word(net) {
        return Err(Refusal::Wrong(i as u32));
    }
    if is_other(net) {
        return Err(Refusal::Unfit);
    }
    if net.len() < HEADER_LENGTH {
        return Err(Refusal::Wrong(net.len() as u32));
    }
    Ok(())
}

// How many words the image has by its first sixteen; as many as are given where these are refused.
pub fn image_words(net: &[u32]) -> usize
    ensures { result ≡ image_words 1024 2048 net.now }
{
    match judge_header(net) {
        Ok(()) => {
            net_words::word_at(net, LIST_AT) as usize + net_words::word_at(net, LIST_USED) as usize
        }
        Err(_) => net.len(),
    }
}

// The judgement: refusal 11, and 12 of N and of list words.
pub fn judge(net: &[u32]) -> Result<(), Refusal>
    ensures { answer_of result ≡ opened 1024 2048 net.now }
{
    judge_header(net)?;
    // Three words for each of 1,024 nets.
    stored_check::check::<3072>(net)?;
    Ok(())
}
