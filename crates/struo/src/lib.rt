// The library's public calls.
#![tactic(auto)]

ghost use Rattle.std.specs.Prelude.{◌≡◌};
ghost use Rattle.spec_rules.specs.Checks.{checked};
ghost use Rattle.spec_tests.specs.Rules.{pick};
ghost use Rattle.spec_call.specs.Call.{numbers_of};
ghost use Rattle.spec_netlist.specs.Accept.{accepts};
ghost use Rattle.spec_netlist.specs.Given.{is_node, node_given, is_record, record_given};
ghost use Rattle.lower_outcome.specs.Answer.{answer_of};
ghost use Rattle.struo.specs.Answers.{Answers};

use image_numbers::*;
use lower_outcome::Refusal;

// The check's answer, as the call's.
fn check(image: &[u8], n: u32, p: u32, netlist: usize, scratch: usize) -> Result<(), Refusal>
    ensures { answer_of result ≡ checked image.now n p netlist scratch }
{
    check_image::check(image, n, p, netlist, scratch)?;
    Ok(())
}

// Checks a module image: refusals 1 to 5, for net limit n, list limit p and the words that the netlist buffer and the scratch will have.
// The answer is the refusal's number and its two places, 0 0 0 where nothing is refused.
pub fn struo_check(
    image: &[u8],
    n: u32,
    p: u32,
    netlist: usize,
    scratch: usize,
    answer: &mut [u32; 3],
)
    ensures { answer.new ≡ numbers_of (checked image.now n p netlist scratch) }
{
    *answer = lower_outcome::numbers(check(image, n, p, netlist, scratch));
}

// Lowers a module image into the netlist image that the model gives, for net limit n and list limit p. The answer is the refusal's
// number and its two places, 0 0 0 where the image is accepted. A refusal 1 to 5 touches no buffer; after 6 to 10 the netlist buffer's
// required words are 0; after these and acceptance the scratch's are; words beyond are untouched.
pub fn struo_lower(
    image: &[u8],
    n: u32,
    p: u32,
    netlist: &mut [u32],
    scratch: &mut [u32],
    answer: &mut [u32; 3],
)
    ensures { Answers image.now n p netlist.old scratch.old answer.new netlist.new scratch.new }
{
    *answer = lower_outcome::numbers(lower::lower(image, n, p, netlist, scratch));
}

// Takes a netlist image back in: the answer is 0 0 0 where the words are one, else 11, the number of the first wrong word, 0. Words past the
// list words used are not read: a longer slice is answered as it is when it is cut there. The call calls itself for that, once at most, so
// that the compiler keeps the large tables out of its own frame (docs/DECISIONS.md, 120).
pub fn struo_netlist_check(netlist: &[u32], answer: &mut [u32; 3])
    ensures { answer.new ≡ numbers_of (accepts netlist.now) }
{
    let end = stored_check::list_end(netlist);
    if end < netlist.len() {
        struo_netlist_check(net_words::stretch(netlist, 0, end), answer);
        return;
    }
    let nets = net_words::word_at(netlist, NET_COUNT);
    if nets <= 64 {
        *answer = stored_check::numbers(stored_check::check::<192>(netlist));
        return;
    }
    if nets <= 1024 {
        *answer = stored_check::numbers(stored_check::check::<3072>(netlist));
        return;
    }
    if nets <= 8192 {
        *answer = stored_check::numbers(stored_check::check::<24576>(netlist));
        return;
    }
    *answer = stored_check::numbers(stored_check::check::<196608>(netlist));
}

// The six words of a node, and 1; six times 0, and 0 where there is no such node.
pub fn struo_netlist_node(netlist: &[u32], net: u32, node: &mut [u32; 6]) -> u32
    ensures { (result ≡ pick (is_node netlist.now net) 1 0) × (node.new ≡ node_given netlist.now net) }
{
    let given = stored_given::node(netlist, net);
    *node = given.unwrap_or([0; 6]);
    stored_given::flag(given.is_some())
}

// The sort and the length of the record that begins at a list word, the list word after it, and 1; three times 0, and 0 where the list
// words used from there on cannot be read as a record that fits.
pub fn struo_netlist_record(netlist: &[u32], at: u32, found: &mut [u32; 3]) -> u32
    ensures { (result ≡ pick (is_record netlist.now at) 1 0) × (found.new ≡ record_given netlist.now at) }
{
    let given = stored_given::record(netlist, at);
    *found = given.unwrap_or([0; 3]);
    stored_given::flag(given.is_some())
}
