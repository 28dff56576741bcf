// The rule of names: their bytes, and none equal within a section. Hashes tell unequal names apart, and a table of remainders of hashes
// tells names that no earlier record can have.
#![tactic(auto)]

ghost use Rattle.std.specs.Prelude.{◌≡◌, ◌+◌, ◌≤◌, ◌<◌, length};
ghost use Rattle.spec_tests.specs.Rules.{any, same_text};
ghost use Rattle.spec_tests.specs.Options.{first_of};
ghost use Rattle.spec_rules.specs.Image.{count_at_of};
ghost use Rattle.spec_rules.specs.Checks.{bad_name, name_taken};
ghost use Rattle.check_names.specs.Earlier.{earlier_of};
ghost use Rattle.check_names.specs.Names.{bad_byte, same_name, wrong_name, mixed, hash_from, hash_at, Hashed, Seen};

// One of the first n bytes of a name is no printing character.
fn bad_bytes(t: &[u8], n: u32) -> bool
    ensures { result ≡ any (bad_byte t.now) n }
{
    (0..n).any(|i| image_fields::is_outside(image_fields::byte(t, i as usize), 33, 126))
}

// The name of record r of section k breaks a rule of its own.
#[tactic(auto, using(spec_chains::proofs::Tests::chained), unfolding(spec_rules::specs::Checks::bad_name, crate::specs::Names::bad_byte))]
pub fn bad_name(image: &[u8], k: u32, r: u32) -> bool
    ensures { result ≡ bad_name image.now k r }
{
    let at = image_fields::record_field(image, k, r, 0);
    let len = image_fields::record_field(image, k, r, 1);
    image_fields::is_outside(len, 1, 64)
        || (image_fields::count(image, image_fields::NAMES) as u64) < (at as u64) + (len as u64)
        || bad_bytes(image_fields::name(image, k, r), len)
}

// Two texts are equal.
pub fn same_text(a: &[u8], b: &[u8]) -> bool
    ensures { result ≡ same_text a.now b.now }
{
    a == b
}

// A hash with one more byte.
fn mix(h: u32, b: u8) -> u32
    ensures { result ≡ mixed h b }
{
    (((h as u64) * 16777619 + (b as u64)) % 4294967296) as u32
}

// The hash of a text.
fn hash(t: &[u8]) -> u32
    ensures { result ≡ hash_from 0 t.now }
{
    t.iter().fold(0, |h, b| mix(h, *b))
}

// The hash of the name of record r of section k.
fn name_hash(image: &[u8], k: u32, r: u32) -> u32
    ensures { result ≡ hash_at image.now k r }
{
    hash(image_fields::stretch(image_fields::name(image, k, r), 0, 64))
}

// The hashes of the names of the first n records of section k, into a table.
fn lay_hashes(image: &[u8], k: u32, n: u32, hs: &mut [u32])
    requires { n ≤ length hs.old }
    ensures { Hashed image.now k n hs.new }
{
    for i in 0..n {
        hs[i as usize] = name_hash(image, k, i);
    }
}

// The names of records j and r of section k are equal; hs are the names' hashes.
fn same_name(image: &[u8], k: u32, r: u32, j: u32, hs: &[u32]) -> bool
    requires { (j < r) × (r < length hs.now) × (Hashed image.now k (r + 1) hs.now) }
    ensures { result ≡ same_name image.now k r j }
{
    hs[j as usize] == hs[r as usize]
        && same_text(
            image_fields::name(image, k, j),
            image_fields::name(image, k, r),
        )
}

// An earlier record of section k has the name of record r; hs are the names' hashes.
fn name_taken(image: &[u8], k: u32, r: u32, hs: &[u32]) -> bool
    requires { (r < length hs.now) × (Hashed image.now k (r + 1) hs.now) }
    ensures { result ≡ name_taken image.now k r }
{
    (0..r).any(|j| same_name(image, k, r, j, hs))
}

// The same; seen has a byte for each remainder of a hash, not 0 where an earlier name has it. Then that of record r too.
fn name_seen(image: &[u8], k: u32, r: u32, hs: &[u32], seen: &mut [u8]) -> bool
    requires { (r < length hs.now) × (Hashed image.now k (r + 1) hs.now) × (0 < length seen.old) × (Seen image.now k r seen.old) }
    ensures { (result ≡ name_taken image.now k r) × (Seen image.now k (r + 1) seen.new) }
{
    let at = hs[r as usize] as usize % seen.len();
    if seen[at] == 0 {
        seen[at] = 1;
        return false;
    }
    name_taken(image, k, r, hs)
}

// The first of the n records of section k whose name breaks a rule; the tables hold hashes and remainders.
fn first_among(image: &[u8], k: u32, n: u32, hs: &mut [u32], seen: &mut [u8]) -> Option<u32>
    requires { (n ≤ length hs.old) × (0 < length seen.old) }
    ensures { result ≡ first_of (wrong_name image.now k) n }
{
    lay_hashes(image, k, n, hs);
    for r in 0..n {
        if bad_name(image, k, r) || name_seen(image, k, r, hs, seen) {
            return Some(r);
        }
    }
    None
}

// The same for at most N records, with a table of M remainders.
fn first_with<const N: usize, const M: usize>(image: &[u8], k: u32, n: u32) -> Option<u32>
    requires { (n ≤ N) × (N ≤ 65536) × (0 < M) × (M ≤ 65536) }
    ensures { result ≡ first_of (wrong_name image.now k) n }
{
    let mut hs: [u32; N] = [0; N];
    let mut seen: [u8; M] = [0; M];
    first_among(image, k, n, &mut hs, &mut seen)
}

// The first of the records of section k whose name breaks a rule.
pub fn first_name(image: &[u8], k: u32) -> Option<u32>
    requires { count_at_of image.now k ≤ 512 }
    ensures { result ≡ first_of (wrong_name image.now k) (count_at_of image.now k) }
{
    let n = image_fields::count(image, k);
    if n == 0 {
        return None;
    }
    if n <= 32 {
        return first_with::<32, 64>(image, k, n);
    }
    first_with::<512, 4096>(image, k, n)
}

// The earlier of two places.
pub fn earlier(a: Option<u32>, b: Option<u32>) -> Option<u32>
    ensures { result ≡ earlier_of a b }
{
    match (a, b) {
        (Some(x), Some(y)) => Some(x.min(y)),
        _ => a.or(b),
    }
}
