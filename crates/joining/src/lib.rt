// Given and added entries in one list, in order.
#![tactic(auto)]

ghost use Rattle.std.specs.Prelude.{◌+◌, ◌≤◌, ◌<◌, length, drop};
ghost use Rattle.rules.specs.Load.{entries};
ghost use Rattle.joining.specs.Joined.{Even, Left, Next, OneMore, JoinedIn};

use rules::LentPlacement;

// Whether the next is a given one: i given and j added ones have been taken.
fn given_is_next(given: &LentPlacement, added: &LentPlacement, i: usize, j: usize) -> bool
    requires { Left given.now.wires.now given.now.offsets.now added.now.wires.now added.now.offsets.now i j }
    ensures { Next (drop i (entries given.now.wires.now given.now.offsets.now)) (drop j (entries added.now.wires.now added.now.offsets.now)) result }
{
    if i == given.wires.len() {
        return false;
    }
    if j == added.wires.len() {
        return true;
    }
    let first = given.entry(i);
    let other = added.entry(j);
    first <= other
}

// Lays the next one, and answers whether it is a given one.
fn lay_next(
    given: &LentPlacement,
    added: &LentPlacement,
    i: usize,
    j: usize,
    wires: &mut [u16],
    offs: &mut [u32],
) -> bool
    requires left { Left given.now.wires.now given.now.offsets.now added.now.wires.now added.now.offsets.now i j }
    requires j_in_bounds { (i + j < length wires.old) × (i + j < length offs.old) }
    ensures { OneMore given.now.wires.now given.now.offsets.now added.now.wires.now added.now.offsets.now i j wires.old offs.old wires.new offs.new result }
{
    let is_given = given_is_next(given, added, i, j);
    let e = if is_given {
        given.entry(i)
    } else {
        added.entry(j)
    };
    wires[i + j] = e.wire;
    offs[i + j] = e.offset;
    is_given
}

// Lays given and added entries into two columns, in order.
#[tactic(auto, using(crate::proofs::Joining::lay_none, crate::proofs::Joining::laid))]
pub fn join(given: &LentPlacement, added: &LentPlacement, wires: &mut [u16], offs: &mut [u32])
    requires even { Even given.now.wires.now given.now.offsets.now added.now.wires.now added.now.offsets.now }
    requires added_in_bounds { let n = length given.now.wires.now + length added.now.wires.now in (n ≤ length wires.old) × (n ≤ length offs.old) }
    ensures { JoinedIn given.now.wires.now given.now.offsets.now added.now.wires.now added.now.offsets.now wires.old offs.old wires.new offs.new }
{
    let mut i = 0;
    for k in 0..given.wires.len() + added.wires.len() {
        if lay_next(given, added, i, k - i, wires, offs) {
            i += 1;
        }
    }
}
