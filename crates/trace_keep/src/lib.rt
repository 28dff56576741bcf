// Moments of a run kept by name, and restored: the values of all nets, those of inputs, registers and read data among them, and the memories' bits.
#![tactic(auto)]

ghost use Rattle.std.specs.Prelude.{◌≡◌, ◌+◌, ◌≤◌, ◌<◌, length};
ghost use Rattle.trace_names.specs.Numbers.{Name};
ghost use Rattle.trace_keep.specs.Copies.{Copied};
ghost use Rattle.trace_keep.specs.Slots.{Roomy};
ghost use Rattle.trace_keep.specs.Kept.{Stores, Loads, Keeps, Backs};
ghost use Rattle.trace_keep.specs.Bundles.{UsedBy, SameKept, done_of};

use trace_line::Tables;

// Words of a slot: 1,024 for the nets' values, and 65,536 for the memories' bits.
const SLOT: usize = 66560;

// A keep or a back that is refused: before the first settings line, with a fifth name, or to a name that is not kept.
#[derive(Clone, Copy)]
pub struct NameRefused;

// The names held, by their numbers, 0 where a place is free; and the moment of each in its slot.
#[derive(Drop)]
pub struct Moments<'a> {
    pub names: &'a mut [u64],
    pub slots: &'a mut [u32],
}

// n words, from word a of one table to word b of another.
fn copy_words(from: &[u32], a: usize, to: &mut [u32], b: usize, n: usize)
    requires { (a + n ≤ length from.now) × (b + n ≤ length to.old) }
    ensures { Copied from.now a to.old b n to.new }
{
    to[b..b + n].copy_from_slice(&from[a..a + n]);
}

// The moment that the tables hold into a slot.
fn store(tables: &Tables, values: &[u32], memory: &[u32], kept: &mut [u32], slot: usize)
    requires { UsedBy tables.now × (1024 ≤ length values.now) × (65536 ≤ length memory.now) × (266240 ≤ length kept.old) × (slot < 4) }
    ensures { Stores tables.now.net.now tables.now.memories.now (length tables.now.memories.now) values.now memory.now kept.old slot kept.new }
{
    let nets = net_words::word_at(tables.net, 1) as usize;
    copy_words(values, 0, kept, SLOT * slot, nets);
    let bits = trace_fit::memory_bits(tables.net, tables.memories) as usize;
    copy_words(memory, 0, kept, SLOT * slot + 1024, bits);
}

// The moment in a slot into the tables.
fn load(tables: &Tables, kept: &[u32], slot: usize, values: &mut [u32], memory: &mut [u32])
    requires { UsedBy tables.now × (1024 ≤ length values.old) × (65536 ≤ length memory.old) × (266240 ≤ length kept.now) × (slot < 4) }
    ensures { Loads tables.now.net.now tables.now.memories.now (length tables.now.memories.now) kept.now slot values.old values.new memory.new }
{
    let nets = net_words::word_at(tables.net, 1) as usize;
    copy_words(kept, SLOT * slot, values, 0, nets);
    let bits = trace_fit::memory_bits(tables.net, tables.memories) as usize;
    copy_words(kept, SLOT * slot + 1024, memory, 0, bits);
}

// Line k keeps the moment under a name.
pub fn keep(
    tables: &Tables,
    values: &[u32],
    memory: &[u32],
    kept: &mut Moments,
    k: u32,
    name: &[u8],
) -> Result<(), NameRefused>
    requires { UsedBy tables.now × Roomy values.now memory.now kept.old.names.now kept.old.slots.now × Name name.now }
    ensures same { SameKept kept.old kept.new }
    ensures keeps { Keeps tables.now.net.now tables.now.memories.now k name.now values.now memory.now kept.old.names.now kept.old.slots.now (done_of result) kept.new.names.now kept.new.slots.now }
{
    if k == 0 {
        return Err(NameRefused);
    }
    let names = &mut *kept.names;
    let n = trace_names::number_of(name);
    let Some(slot) = trace_names::place_of(names, n) else {
        return Err(NameRefused);
    };
    names[slot] = n;
    store(tables, values, memory, kept.slots, slot);
    Ok(())
}

// Back to the moment under a name.
pub fn back(
    tables: &Tables,
    values: &mut [u32],
    memory: &mut [u32],
    names: &[u64],
    slots: &[u32],
    k: u32,
    name: &[u8],
) -> Result<(), NameRefused>
    requires { UsedBy tables.now × Roomy values.old memory.old names.now slots.now × Name name.now }
    ensures { Backs tables.now.net.now tables.now.memories.now k name.now values.old memory.old names.now slots.now (done_of result) values.new memory.new }
{
    let n = trace_names::number_of(name);
    let Some(held) = trace_names::place_of(names, n) else {
        return Err(NameRefused);
    };
    if names[held] != n {
        return Err(NameRefused);
    }
    load(tables, slots, held, values, memory);
    Ok(())
}
