// What a net file says, and the columns into which its reader takes the nodes: types, definitions and their laws.
#![tactic(auto)]

ghost use Rattle.std.specs.Prelude.{◌≡◌, [], ◌∷◌, ◌<◌, ◌≤◌};
ghost use Rattle.rules.specs.Net.{net_of as net_behind, unlimited};
ghost use Rattle.net_file.specs.NetFile.{kept_in, blank, first_places, laid_over, columns_of};

use rules::{LentNet, Limits, Node, PLACES};

// A file that was read: its limits, and the places that its nodes and the source take.
#[derive(Clone, Copy, Debug, PartialEq, Eq)]
pub struct NetRead {
    pub limits: Limits,
    pub places: usize,
}

// A node that was taken from a file, with the place of the field after it.
#[derive(Clone, Copy, Debug, PartialEq, Eq)]
pub struct Taken {
    pub node: Node,
    pub next: usize,
}

// Columns of the reader's own, with a place for each node that a net may have.
#[derive(Drop)]
pub struct Columns {
    pub parent: [u16; PLACES],
    pub wire: [u32; PLACES],
    pub kind: [u8; PLACES],
    pub pin: [u32; PLACES],
    pub polarity: [u8; PLACES],
}

impl Columns {
    // Columns that hold 0 in each place.
    pub fn blank() -> Columns
        ensures { kept_in result ≡ blank }
    {
        Columns {
            parent: [0; PLACES],
            wire: [0; PLACES],
            kind: [0; PLACES],
            pin: [0; PLACES],
            polarity: [0; PLACES],
        }
    }

    // Puts node i into its place of each column.
    pub fn put(&mut self, i: usize, node: Node)
        requires { i < 1025 }
        ensures { kept_in self.new ≡ laid_over (kept_in self.old) i (columns_of unlimited (node ∷ [])) }
    {
        self.parent[i] = node.parent;
        self.wire[i] = node.wire;
        self.kind[i] = node.kind;
        self.pin[i] = node.pin;
        self.polarity[i] = node.polarity;
    }

    // The first places, lent as a net with these limits.
    pub fn lent(&self, limits: Limits, places: usize) -> LentNet<'_>
        requires { places ≤ 1025 }
        ensures { net_behind result ≡ first_places places limits (kept_in self.now) }
    {
        LentNet {
            limits,
            parent: &self.parent[..places],
            wire: &self.wire[..places],
            kind: &self.kind[..places],
            pin: &self.pin[..places],
            polarity: &self.polarity[..places],
        }
    }
}
