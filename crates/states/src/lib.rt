// The frontier's numbers at one wire: what it hands up over a node's state, by its inverters. No tables here.
#![tactic(auto)]

ghost use Rattle.std.specs.Prelude.{Some, ◌≡◌, ◌+◌, ◌*◌, ◌<◌, ◌≤◌};
ghost use Rattle.rules.specs.Figures.{most_wire};
ghost use Rattle.frontier.specs.Frontier.{lost, has, T};
ghost use Rattle.frontier.specs.Frontier as frontier;
ghost use Rattle.frontier.specs.Cell.{cell_of, inv};

use rules::Limits;

// The limit C_U, the repeater's pin C_b, what is left of the limit beside the pin, and 1 for an inverter: in their ranges (RULES 1.9).
#[derive(Clone, Copy)]
pub struct Cell {
    pub limit: u64,
    pub pin: u64,
    pub span: u64,
    pub repeater: u8,
    pub ghost limit_is: { limit ≡ pin + span },
    pub ghost some_span: { 1 ≤ span },
    pub ghost limit_small: { limit ≤ 1000000 },
    pub ghost a_kind: { repeater ≤ 1 },
}

// What is kept of a wire or a node at one polarity: the least count, the least load with it, and with one more.
#[derive(Clone, Copy)]
pub struct State {
    pub count: u64,
    pub load: u64,
    pub more: u64,
}

// A node or a wire at both polarities: nothing is kept of one that no placement serves.
#[derive(Clone, Copy)]
pub struct Sides {
    pub plus: Option<State>,
    pub minus: Option<State>,
}

impl State {
    ghost use Rattle.states.specs.States.{st};

    // The state of a wire of size w that takes no repeater over this one.
    fn grown(self, w: u64) -> State
        requires { (w ≤ most_wire) × (self.load ≤ 1000000) × (self.more ≤ 1000000) }
        ensures { st (Some result) ≡ has self.count (w + self.load) (w + self.more) }
    {
        State {
            load: w + self.load,
            more: w + self.more,
            ..self
        }
    }

    // The better of two, where the other counts more.
    fn before(self, other: State) -> State
        requires { self.count < other.count }
        ensures { st (Some result) ≡ frontier.merge (st (Some self)) (st (Some other)) }
    {
        if other.count - self.count == 1 {
            return State {
                more: self.more.min(other.load),
                ..self
            };
        }
        self
    }

    // The better of two.
    pub fn better(self, other: State) -> State
        ensures { st (Some result) ≡ frontier.merge (st (Some self)) (st (Some other)) }
    {
        if self.count < other.count {
            return self.before(other);
        }
        if other.count < self.count {
            return other.before(self);
        }
        State {
            count: self.count,
            load: self.load.min(other.load),
            more: self.more.min(other.more),
        }
    }

    // The better of two, of which either may be lost.
    pub fn merge(s: Option<State>, t: Option<State>) -> Option<State>
        ensures { st result ≡ frontier.merge (st s) (st t) }
    {
        match (s, t) {
            (Some(a), Some(b)) => Some(a.better(b)),
            (Some(_), None) => s,
            (None, _) => t,
        }
    }
}

impl Sides {
    // Each polarity taken for the other.
    fn swapped(self) -> Sides
        ensures { (result.plus ≡ self.minus) × (result.minus ≡ self.plus) }
    {
        Sides {
            plus: self.minus,
            minus: self.plus,
        }
    }
}

impl Cell {
    ghost use Rattle.states.specs.States.{model_of, limits_of, st, Small, Falls, wire_of, Lifted};

    pub fn of(limits: Limits) -> Cell
        requires { (2 * limits.pin < limits.limit) × (limits.limit ≤ 1000000) × (limits.repeater ≤ 1) }
        ensures { (model_of result ≡ cell_of limits) × (limits_of result ≡ limits) }
    {
        Cell {
            limit: u64::from(limits.limit),
            pin: u64::from(limits.pin),
            // Written so that the compiler sees that it is not 0, and tests no divisor in the loops that divide by it.
            span: u64::from(limits.limit - limits.pin - 1) + 1,
            repeater: limits.repeater,
        }
    }

    // The least r with v at most C_U + r spans.
    pub fn ceil(self, v: u64) -> u64
        requires { v ≤ 11000000 }
        ensures { result ≡ frontier.ceil (model_of self) v }
    {
        if v <= self.limit {
            return 0;
        }
        ((v - self.limit) + (self.span - 1)) / self.span
    }

    // The same, of the parity that inverters ask.
    pub fn req(self, odd: u64, v: u64) -> u64
        requires { (v ≤ 11000000) × (odd ≤ 1) }
        ensures { result ≡ frontier.req (model_of self) inv odd v }
    {
        let r = self.ceil(v);
        r + (r + odd) % 2
    }

    // What a wire hands up with r repeaters on it, where v is its size and what lies below.
    pub fn top(self, v: u64, r: u64) -> u64
        requires { r * self.span ≤ 2000000000 }
        ensures { result ≡ T (model_of self) v r }
    {
        if r == 0 {
            return v;
        }
        v.saturating_sub(r * self.span).max(self.pin)
    }

    // Over a node with the count n, v its load and the wire's size.
    fn cand(self, odd: u64, n: u64, v: u64) -> State
        requires { (v ≤ 11000000) × (odd ≤ 1) × (n ≤ 1000000000000) }
        ensures { st (Some result) ≡ frontier.cand (model_of self) inv odd n v }
    {
        let r = self.req(odd, v);
        let t = self.top(v, r);
        State {
            count: n + r,
            load: t,
            more: t,
        }
    }

    // A wire of size w over a node's state.
    fn via(self, odd: u64, w: u64, s: Option<State>) -> Option<State>
        requires { (w ≤ most_wire) × (odd ≤ 1) × Small 500000000000 s }
        ensures { st result ≡ frontier.via (model_of self) inv odd w (st s) }
    {
        let s = s?;
        let x = self.cand(odd, s.count, w + s.load);
        let y = self.cand(odd, s.count + 1, w + s.more);
        Some(x.better(y))
    }

    // Over the node's states at the wire's own polarity and at the other one.
    fn over(self, w: u64, same: Option<State>, other: Option<State>) -> Option<State>
        requires { (w ≤ most_wire) × Small 500000000000 same × Small 500000000000 other }
        ensures { st result ≡ wire_of (model_of self) inv w (st same) (st other) }
    {
        let x = self.via(0, w, same);
        let y = self.via(1, w, other);
        State::merge(x, y)
    }

    // One repeater over a state hands up its pin.
    fn turned(self, s: State) -> State
        requires { s.count ≤ 500000000000 }
        ensures { st (Some result) ≡ has (s.count + 1) self.pin self.pin }
    {
        State {
            count: s.count + 1,
            load: self.pin,
            more: self.pin,
        }
    }

    // A wire over its node's two states, by division.
    fn lift_long(self, w: u64, s: Sides) -> Sides
        requires { (w ≤ most_wire) × Small 500000000000 s.plus × Small 500000000000 s.minus }
        ensures { Lifted (model_of self) w (st s.plus) (st s.minus) result }
    {
        Sides {
            plus: self.over(w, s.plus, s.minus),
            minus: self.over(w, s.minus, s.plus),
        }
    }

    // Over one polarity alone, taken for plus. A wire whose load fits needs no division: it takes no inverter, or one that hands up its pin.
    fn lift_one(self, w: u64, s: State) -> Sides
        requires { (w ≤ most_wire) × Small 500000000000 (Some s) × (s.more ≤ s.load) }
        ensures { Lifted (model_of self) w (st (Some s)) lost result }
    {
        if self.limit < w + s.load {
            let sides = Sides {
                plus: Some(s),
                minus: None,
            };
            return self.lift_long(w, sides);
        }
        Sides {
            plus: Some(s.grown(w)),
            minus: Some(self.turned(s)),
        }
    }

    // Over both polarities.
    fn lift_two(self, w: u64, s: State, t: State) -> Sides
        requires { (w ≤ most_wire) × Small 500000000000 (Some s) × Small 500000000000 (Some t) × (s.more ≤ s.load) × (t.more ≤ t.load) }
        ensures { Lifted (model_of self) w (st (Some s)) (st (Some t)) result }
    {
        if self.limit < w + s.load.max(t.load) {
            let sides = Sides {
                plus: Some(s),
                minus: Some(t),
            };
            return self.lift_long(w, sides);
        }
        Sides {
            plus: Some(s.grown(w).better(self.turned(t))),
            minus: Some(t.grown(w).better(self.turned(s))),
        }
    }

    // A wire of size w over its node's two states.
    pub fn lift(self, w: u64, s: Sides) -> Sides
        requires { (w ≤ most_wire) × Small 500000000000 s.plus × Small 500000000000 s.minus × Falls (st s.plus) × Falls (st s.minus) }
        ensures { Lifted (model_of self) w (st s.plus) (st s.minus) result }
    {
        match (s.plus, s.minus) {
            (None, None) => s,
            (Some(p), None) => self.lift_one(w, p),
            (None, Some(q)) => self.lift_one(w, q).swapped(),
            (Some(p), Some(q)) => self.lift_two(w, p, q),
        }
    }
}
