// A placement file: what it says, and what reading and writing one answers; definitions, their laws, and the columns for what is read.
#![tactic(auto)]

ghost use Rattle.std.specs.Prelude.{◌≡◌, ◌≤◌, take, replicate};

use rules::LentPlacement;

// The most entries that a file holds (RULES 3.9).
pub const ENTRIES: usize = 4096;

// The two columns of a placement, with room for the entries of any file.
#[derive(Drop)]
pub struct Entries {
    pub wires: [u16; ENTRIES],
    pub offsets: [u32; ENTRIES],
}

impl Entries {
    // Entries of zeros.
    pub fn blank() -> Entries
        ensures { (result.wires ≡ replicate ENTRIES 0) × (result.offsets ≡ replicate ENTRIES 0) }
    {
        Entries {
            wires: [0; ENTRIES],
            offsets: [0; ENTRIES],
        }
    }

    // The first `count` entries.
    pub fn lent(&self, count: usize) -> LentPlacement<'_>
        requires { count ≤ ENTRIES }
        ensures { (result.wires.now ≡ take count self.now.wires) × (result.offsets.now ≡ take count self.now.offsets) }
    {
        LentPlacement {
            wires: &self.wires[..count],
            offsets: &self.offsets[..count],
        }
    }
}
