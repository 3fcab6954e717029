// The two columns that are lent to be filled with entries: their room, and entries written into them a span apart.
#![tactic(auto)]

ghost use Rattle.std.specs.Prelude.{◌≡◌, ◌+◌, ◌≤◌, min, length, replicate};
ghost use Rattle.std.proofs.lemmas.List.Edits.{sets};
ghost use Rattle.rules.specs.Figures.{most_entries};
ghost use Rattle.frontier.specs.Spaced.{steps};

// The room: the shorter of two columns, and at most 4,096.
pub fn room(a: usize, b: usize) -> u64
    ensures { result ≡ min (min a b) most_entries }
{
    a.min(b).min(4096) as u64
}

// Entries of one wire a span apart: the lowest at an offset, and none past the wire's size.
#[derive(Clone, Copy)]
pub struct Run {
    pub wire: u16,
    pub size: u64,
    pub lowest: u64,
    pub span: u64,
    pub count: usize,
}

// The entries of a run, from the place `at` on.
pub fn write_spaced(wires: &mut [u16], offsets: &mut [u32], at: usize, run: Run)
    requires in_bounds { (at + run.count ≤ length wires.old) × (at + run.count ≤ length offsets.old) }
    requires in_wire { (run.lowest ≤ run.size) × (run.size ≤ 10000000) × (run.span ≤ 1000000) }
    ensures { (wires.new ≡ sets wires.old at (replicate run.count run.wire)) × (offsets.new ≡ sets offsets.old at (steps run.size run.span run.lowest run.count)) }
{
    let mut offset = run.lowest;
    for j in 0..run.count {
        wires[at + j] = run.wire;
        offsets[at + j] = offset as u32;
        offset = run.size.min(offset + run.span);
    }
}
