// What the solver of inverters keeps of a net instead of the frontier's rows, and how it deals a surplus out: records of it, definitions and laws. No function.
#![tactic(auto)]

// What is kept of a wire at one polarity: its least load and that with one more, the same of the wires from it on, and one more than the least count of these; 0 where one
// of them has no state.
#[derive(Clone, Copy)]
pub struct Slot {
    pub count: u64,
    pub load: u32,
    pub more: u32,
    pub all_load: u32,
    pub all_more: u32,
}

// What is kept of a node at one polarity: its least load, that with one more, and one more than the surplus that it takes; 0 where it has no state.
#[derive(Clone, Copy)]
pub struct Closed {
    pub load: u32,
    pub more: u32,
    pub over: u32,
}

impl Closed {
    // Of a node without a state.
    pub const NONE: Closed = Closed {
        load: 0,
        more: 0,
        over: 0,
    };
}

impl Slot {
    // Of no wire yet.
    pub const BLANK: Slot = Slot {
        count: 0,
        load: 0,
        more: 0,
        all_load: 0,
        all_more: 0,
    };
}
