// What the rules say of a net, a placement and a refusal: types, definitions and their laws.
#![tactic(auto)]

ghost use Rattle.std.specs.Prelude.{◌≡◌, ◌<◌, length};
ghost use Rattle.rules.specs.Refusal.{number_of, place_of};
ghost use Rattle.rules.specs.Net.{net_of, node, Within};
ghost use Rattle.rules.specs.Load.{column_entry};
ghost use Rattle.rules.specs.Sound.{SoundNet};

// The figures of RULES 1: the places of a column, the children of a node, the entries of a placement; the highest limit, wire and pin.
pub const PLACES: usize = 1025;

pub const CHILDREN: u8 = 8;

pub const ENTRIES: usize = 4096;

pub const MOST_LIMIT: u32 = 1_000_000;

pub const MOST_WIRE: u32 = 10_000_000;

pub const MOST_PIN: u32 = 1_000_000;

// The limits of a net: C_U, C_b, and 0 for a buffer or 1 for an inverter. Any number may come in, and the judge refuses one that is neither.

#[derive(Clone, Copy, Debug, PartialEq, Eq)]
pub struct Limits {
    pub limit: u32,
    pub pin: u32,
    pub repeater: u8,
}

// A node as the columns hold it: kind is 0 for a branch point and 1 for a sink.
#[derive(Clone, Copy, Debug, PartialEq, Eq)]
pub struct Node {
    pub parent: u16,
    pub wire: u32,
    pub kind: u8,
    pub pin: u32,
    pub polarity: u8,
}

// An entry of a placement: a wire, and the units of that wire below the repeater. Entries stand in this order: by wire, and on a wire by offset.
#[derive(Clone, Copy, Debug, PartialEq, Eq, PartialOrd, Ord)]
pub struct Entry {
    pub wire: u16,
    pub offset: u32,
}

// A net: its limits, and the five columns of its nodes. Whatever they hold, unequal or empty, may be lent.
#[derive(Clone, Copy)]
pub struct LentNet<'a> {
    pub limits: Limits,
    pub parent: &'a [u16],
    pub wire: &'a [u32],
    pub kind: &'a [u8],
    pub pin: &'a [u32],
    pub polarity: &'a [u8],
}

impl LentNet<'_> {
    // Node i of the columns.
    pub fn node(&self, i: usize) -> Node
        requires { Within (net_of self.now) i }
        ensures { result ≡ node (net_of self.now) i }
    {
        Node {
            parent: self.parent[i],
            wire: self.wire[i],
            kind: self.kind[i],
            pin: self.pin[i],
            polarity: self.polarity[i],
        }
    }
}

// A net that was judged, and is sound (RULES 1.15).
#[derive(Clone, Copy)]
pub struct JudgedNet<'a> {
    pub net: LentNet<'a>,
    pub ghost sound: { SoundNet (net_of net) },
}

// A placement: the wires and the offsets of its entries.
#[derive(Clone, Copy)]
pub struct LentPlacement<'a> {
    pub wires: &'a [u16],
    pub offsets: &'a [u32],
}

impl LentPlacement<'_> {
    // Entry k of the columns.
    pub fn entry(&self, k: usize) -> Entry
        requires { (k < length self.now.wires.now) × (k < length self.now.offsets.now) }
        ensures { result ≡ column_entry self.now.wires.now self.now.offsets.now k }
    {
        Entry {
            wire: self.wires[k],
            offset: self.offsets[k],
        }
    }
}

// Why a call refuses, in the order of the numbers (RULES 4.3). Each holds the place.
#[derive(Clone, Copy, Debug, PartialEq, Eq)]
pub enum Refusal {
    FileEnds(usize),
    NotDue(usize),
    OutOfRange(usize),
    WrongParent(usize),
    Childless(usize),
    BytesAfterEnd(usize),
    WrongColumns,
    NoLegalPlacement,
    NoRoom(u64),
    Misplaced(usize),
    Overloaded(usize),
    WrongParity(usize),
    NotEased(usize),
}

impl Refusal {
    // Its number.
    pub fn number(self) -> u32
        ensures { result ≡ number_of self }
    {
        match self {
            Refusal::FileEnds(_) => 1,
            Refusal::NotDue(_) => 2,
            Refusal::OutOfRange(_) => 3,
            Refusal::WrongParent(_) => 4,
            Refusal::Childless(_) => 5,
            Refusal::BytesAfterEnd(_) => 6,
            Refusal::WrongColumns => 7,
            Refusal::NoLegalPlacement => 8,
            Refusal::NoRoom(_) => 9,
            Refusal::Misplaced(_) => 10,
            Refusal::Overloaded(_) => 11,
            Refusal::WrongParity(_) => 12,
            Refusal::NotEased(_) => 13,
        }
    }

    // Its place: a byte, a node or an entry, for 9 the number needed, and 0 where the table names none.
    pub fn place(self) -> u64
        ensures { result ≡ place_of self }
    {
        match self {
            Refusal::WrongColumns | Refusal::NoLegalPlacement => 0,
            Refusal::NoRoom(needed) => needed,
            Refusal::FileEnds(p)
            | Refusal::NotDue(p)
            | Refusal::OutOfRange(p)
            | Refusal::WrongParent(p)
            | Refusal::Childless(p)
            | Refusal::BytesAfterEnd(p)
            | Refusal::Misplaced(p)
            | Refusal::Overloaded(p)
            | Refusal::WrongParity(p)
            | Refusal::NotEased(p) => p as u64,
        }
    }
}
