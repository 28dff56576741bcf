// The names in a trace's keep and back lines: whether a line is one, the number of a name, and its place among those held.
#![tactic(auto)]

ghost use Rattle.std.specs.Prelude.{◌≡◌, ◌≤◌, length, get_or};
ghost use Rattle.spec_tests.specs.Rules.{◌≡?◌, ◌or◌, outside};
ghost use Rattle.spec_tests.specs.Options.{first_of};
ghost use Rattle.spec_trace.specs.Opened.{having};
ghost use Rattle.spec_trace.specs.Named.{good_name, is_named};
ghost use Rattle.trace_names.specs.Numbers.{number};

// A name has a letter that is not of a to z.
fn has_other_letter(name: &[u8]) -> bool
    ensures { result ≡ having (λ b. outside b 97 122) name.now }
{
    name.iter()
        .any(|b| image_fields::is_outside(*b as u32, 97, 122))
}

// One to eight such letters.
fn is_name(name: &[u8]) -> bool
    ensures { result ≡ good_name name.now }
{
    if name.len() < 1 {
        return false;
    }
    if 8 < name.len() {
        return false;
    }
    !has_other_letter(name)
}

// A line of this word, five bytes, and a name.
pub fn is_named(line: &[u8], word: &[u8]) -> bool
    ensures { result ≡ is_named word.now line.now }
{
    if check_names::same_text(image_fields::stretch(line, 0, 5), word) {
        return is_name(image_fields::part(line, 5));
    }
    false
}

// The number whose digits, base 256, are a name's letters, the first the lowest.
pub fn number_of(name: &[u8]) -> u64
    requires { length name.now ≤ 8 }
    ensures { result ≡ number name.now }
{
    let mut n: u64 = 0;
    for i in (0..name.len()).rev() {
        n = n * 256 + image_fields::byte(name, i) as u64;
    }
    n
}

// The first place among the names held that has this number or is free.
pub fn place_of(held: &[u64], n: u64) -> Option<usize>
    ensures { result ≡ first_of (λ i. get_or held.now i 0 ≡? n or get_or held.now i 0 ≡? 0) (length held.now) }
{
    held.iter().position(|x| *x == n || *x == 0)
}
