// Memories over one step, on tables of words: old has the values of all nets before it; new gets those of read data, and has the new
// inputs; memory has the memories' bits, a word each.
#![tactic(auto)]

ghost use Rattle.std.specs.Prelude.{◌≡◌, map, ◌+◌, ◌*◌, ◌≤◌, ◌<◌, length, get_or};
ghost use Rattle.spec_rtl.specs.Word.{bit, value};
ghost use Rattle.spec_rules.specs.NetlistImage.{memory_port_of};
ghost use Rattle.spec_rules.specs.Step.{net_access, writing};
ghost use Rattle.trace_step.specs.Words.{on, spread, identity, laid, port_read, port_written, memory_read, memory_written, memories_read, memories_written};
ghost use Rattle.trace_memory.specs.Ports.{PortFits, MemoryFits, MemoriesFit};

// The number that at most 32 nets hold, bit 0 first. Unlike trace_cells::gather it asks nothing of the values, nor do the calls here.
fn number(list: &[u32], values: &[u32]) -> u64
    requires { length list.now ≤ 32 }
    ensures { (result ≡ value (map (on values.now) list.now)) × (result < 4294967296) }
{
    let mut r: u64 = 0;
    for i in (0..list.len()).rev() {
        r = 2 * r + trace_step::bit_of(trace_step::is_on(values, list[i])) as u64;
    }
    r
}

// Gives nets these words in turn, 0 behind the last.
fn spread_words(nets: &[u32], words: &[u32], values: &mut [u32])
    ensures { values.new ≡ spread identity values.old nets.now words.now }
{
    for (i, net) in nets.iter().enumerate() {
        trace_step::put(values, *net, net_words::word_at(words, i));
    }
}

// The bits of nets into the memory, from a place on.
fn lay_bits(nets: &[u32], values: &[u32], memory: &mut [u32], at: usize)
    requires { at + length nets.now ≤ length memory.old }
    ensures { memory.new ≡ laid memory.old at (map (λ n. bit (on values.now n)) nets.now) }
{
    for (i, net) in nets.iter().enumerate() {
        memory[at + i] = trace_step::bit_of(trace_step::is_on(values, *net));
    }
}

// A port with these words reads.
fn read_port(
    p: &[u32],
    depth: u32,
    width: usize,
    memory: &[u32],
    base: usize,
    old: &[u32],
    new: &mut [u32],
)
    requires { PortFits p.now depth width base }
    ensures { new.new ≡ port_read depth width memory.now base p.now old.now new.old }
{
    let e = net_words::port_length(p) - 6;
    if !trace_step::ticks(
        old,
        new,
        net_words::word_at(p, e + 4),
        net_words::word_at(p, e + 5),
    ) {
        return;
    }
    if !trace_step::is_enabled(old, net_words::word_at(p, e), net_words::word_at(p, e + 1)) {
        return;
    }
    let n = net_words::word_at(p, 0) as usize;
    let a = number(net_words::stretch(p, 4, n), old);
    let data = net_words::stretch(p, 4 + n, net_words::word_at(p, 1) as usize);
    if depth as u64 <= a {
        spread_words(data, net_words::stretch(memory, 0, 0), new);
        return;
    }
    spread_words(
        data,
        net_words::stretch(memory, base + a as usize * width, width),
        new,
    );
}

// It writes in this step.
pub fn is_writing(p: &[u32], old: &[u32], new: &[u32]) -> bool
    ensures { result ≡ writing (net_access (on old.now) (on new.now) (memory_port_of p.now)) }
{
    let e = net_words::port_length(p) - 6;
    if !trace_step::ticks(
        old,
        new,
        net_words::word_at(p, e + 4),
        net_words::word_at(p, e + 5),
    ) {
        return false;
    }
    trace_step::is_active(
        old,
        net_words::word_at(p, e + 2),
        net_words::word_at(p, e + 3),
    )
}

// The address that it writes to.
pub fn write_address(p: &[u32], old: &[u32]) -> u64
    requires { get_or p.now 2 0 ≤ 32 }
    ensures { (result ≡ value (map (on old.now) (memory_port_of p.now).write_address)) × (result < 4294967296) }
{
    let n = 4 + net_words::word_at(p, 0) as usize + net_words::word_at(p, 1) as usize;
    number(
        net_words::stretch(p, n, net_words::word_at(p, 2) as usize),
        old,
    )
}

// What it writes is stored.
fn write_port(
    p: &[u32],
    depth: u32,
    width: usize,
    memory: &mut [u32],
    base: usize,
    old: &[u32],
    new: &[u32],
)
    requires { (PortFits p.now depth width base) × (65536 ≤ length memory.old) }
    ensures { memory.new ≡ port_written depth width base p.now old.now new.now memory.old }
{
    if !is_writing(p, old, new) {
        return;
    }
    let a = write_address(p, old);
    if depth as u64 <= a {
        return;
    }
    let n = 4 + net_words::word_at(p, 0) as usize + net_words::word_at(p, 1) as usize;
    let w = net_words::word_at(p, 2) as usize;
    let data = net_words::stretch(p, n + w, net_words::word_at(p, 3) as usize);
    lay_bits(data, old, memory, base + a as usize * width);
}

// A memory with this record reads, its bits beginning at base.
fn read_memory(r: &[u32], memory: &[u32], base: usize, old: &[u32], new: &mut [u32])
    requires { MemoryFits r.now base }
    ensures { new.new ≡ memory_read memory.now base r.now old.now new.old }
{
    let depth = net_words::word_at(r, 2);
    let width = net_words::word_at(r, 7) as usize;
    let first = net_words::part(r, 6);
    read_port(first, depth, width, memory, base, old, new);
    if net_words::word_at(r, 5) != 2 {
        return;
    }
    let second = net_words::part(r, 6 + net_words::port_length(first));
    read_port(second, depth, width, memory, base, old, new);
}

// It writes, the first port before the second.
fn write_memory(r: &[u32], memory: &mut [u32], base: usize, old: &[u32], new: &[u32])
    requires { (MemoryFits r.now base) × (65536 ≤ length memory.old) }
    ensures { memory.new ≡ memory_written base r.now old.now new.now memory.old }
{
    let depth = net_words::word_at(r, 2);
    let width = net_words::word_at(r, 7) as usize;
    let first = net_words::part(r, 6);
    write_port(first, depth, width, memory, base, old, new);
    if net_words::word_at(r, 5) != 2 {
        return;
    }
    let second = net_words::part(r, 6 + net_words::port_length(first));
    write_port(second, depth, width, memory, base, old, new);
}

// All memories read, at the places of their records.
pub fn read_memories(net: &[u32], places: &[u32], memory: &[u32], old: &[u32], new: &mut [u32])
    requires { MemoriesFit net.now places.now (length places.now) }
    ensures { new.new ≡ memories_read net.now memory.now old.now places.now (length places.now) new.old }
{
    let mut base: usize = 0;
    for place in places {
        let r = net_words::part(net, *place as usize);
        read_memory(r, memory, base, old, new);
        base += net_words::word_at(r, 2) as usize * net_words::word_at(r, 7) as usize;
    }
}

// All memories write.
pub fn write_memories(net: &[u32], places: &[u32], memory: &mut [u32], old: &[u32], new: &[u32])
    requires { (MemoriesFit net.now places.now (length places.now)) × (65536 ≤ length memory.old) }
    ensures { memory.new ≡ memories_written net.now old.now new.now places.now (length places.now) memory.old }
{
    let mut base: usize = 0;
    for place in places {
        let r = net_words::part(net, *place as usize);
        write_memory(r, memory, base, old, new);
        base += net_words::word_at(r, 2) as usize * net_words::word_at(r, 7) as usize;
    }
}
