// A field of a file: what it holds, and why there is none; types, definitions and their laws.
#![tactic(auto)]

ghost use Rattle.std.specs.Prelude.{◌≡◌};
ghost use Rattle.field.specs.Format.{when_due};

use rules::{Entry, Limits, Refusal};

// The tags of the six fields: RULES 3.4.
pub const LIMITS_TAG: u8 = 1;

pub const BRANCH_TAG: u8 = 2;

pub const SINK_TAG: u8 = 3;

pub const COUNT_TAG: u8 = 17;

pub const ENTRY_TAG: u8 = 18;

pub const END_TAG: u8 = 127;

// The bytes of a field's header, which are its tag and the two bytes of its length, and of each whole field.
pub const HEADER: usize = 3;

pub const LIMITS_SIZE: usize = 12;

pub const BRANCH_SIZE: usize = 9;

pub const SINK_SIZE: usize = 14;

pub const COUNT_SIZE: usize = 5;

pub const ENTRY_SIZE: usize = 9;

pub const END_SIZE: usize = 3;

// The six things that a field is, each with its values: RULES 3.4, 3.12.
#[derive(Clone, Copy, Debug, PartialEq, Eq)]
pub enum Value {
    Limits(Limits),
    Branch {
        parent: u16,
        wire: u32,
    },
    Sink {
        parent: u16,
        wire: u32,
        pin: u32,
        polarity: u8,
    },
    Count(u16),
    Entry(Entry),
    End,
}

// A field that has been read, with the byte where it begins.
#[derive(Clone, Copy, Debug, PartialEq, Eq)]
pub struct Field {
    pub at: usize,
    pub value: Value,
}

// Why there is no field at a place.
#[derive(Clone, Copy, Debug, PartialEq, Eq)]
pub enum NoField {
    // Tag and length are right and the body is not all there: 1 where the tag is due, 2 where it is not.
    Cut { tag: u8, place: usize },
    Refused(Refusal),
}

impl NoField {
    // The refusal where the field's tag is due.
    pub fn when_due(self) -> Refusal
        ensures { result ≡ when_due self }
    {
        match self {
            NoField::Cut { place, .. } => Refusal::FileEnds(place),
            NoField::Refused(why) => why,
        }
    }
}
