// A least placement of a net of buffers: the way up of a net of which nothing is given, then 8, then 9, then the entries.
#![tactic(auto)]

ghost use Rattle.std.specs.Prelude.{◌≡◌, [], ◌≤◌, length};
ghost use Rattle.rules.specs.Net.{Net, net_of};
ghost use Rattle.rules.specs.Legal.{Legal, Least};
ghost use Rattle.rules.specs.Sound.{SoundNet};
ghost use Rattle.states.specs.States.{model_of};
ghost use Rattle.columns.specs.Columns.{Holds};
ghost use Rattle.adding.specs.Walks.{all_added, Ready};
ghost use Rattle.solution.specs.Answer.{Outcome};

use adding::Wire;
use buffers::Tables;
use rules::{LentNet, Refusal};
use states::Cell;

// How many entries there are on all the wires.
fn count(c: Cell, wire: &[u32], tables: &Tables) -> u64
    requires { Ready (model_of c) wire.now tables.now.below tables.now.on [] [] }
    ensures { result ≡ length (all_added (model_of c) wire.now tables.now.below tables.now.on []) }
{
    let mut to = 0;
    for i in 1..wire.len() {
        let x = Wire::at(wire, tables, i);
        to += adding::takes(c, x.size + x.below) + x.top;
    }
    to as u64
}

// All m of them, in list order, into the first places of the lent columns.
fn write(c: Cell, wire: &[u32], tables: &Tables, wires: &mut [u16], offsets: &mut [u32], m: usize)
    requires ready { Ready (model_of c) wire.now tables.now.below tables.now.on [] [] }
    requires m_value { (m ≡ length (all_added (model_of c) wire.now tables.now.below tables.now.on [])) × (m ≤ length wires.old) × (m ≤ length offsets.old) }
    ensures { Holds (all_added (model_of c) wire.now tables.now.below tables.now.on []) wires.old offsets.old wires.new offsets.new }
{
    let mut i = 1;
    let mut to = 0;
    while to < m {
        let x = Wire::at(wire, tables, i);
        to = adding::write_above(c, x, wires, offsets, x.begin(0, to));
        i += 1;
    }
}

// 9 where the entries are more than the room, else they are written.
fn place(
    c: Cell,
    wire: &[u32],
    tables: &Tables,
    wires: &mut [u16],
    offsets: &mut [u32],
) -> Result<usize, Refusal>
    requires { Ready (model_of c) wire.now tables.now.below tables.now.on [] [] }
    ensures { (n : Net) → Legal n (all_added (model_of c) wire.now tables.now.below tables.now.on []) → Least n (length (all_added (model_of c) wire.now tables.now.below tables.now.on [])) → Outcome n wires.old offsets.old wires.new offsets.new result }
{
    let m = count(c, wire, tables);
    if columns::room(wires.len(), offsets.len()) < m {
        return Err(Refusal::NoRoom(m));
    }
    write(c, wire, tables, wires, offsets, m as usize);
    Ok(m as usize)
}

// The answer for a net that is sound.
pub fn solve(net: &LentNet, wires: &mut [u16], offsets: &mut [u32]) -> Result<usize, Refusal>
    requires { SoundNet (net_of net.now) × (net.now.limits.repeater ≡ 0) }
    ensures { Outcome (net_of net.now) wires.old offsets.old wires.new offsets.new result }
{
    let cell = Cell::of(net.limits);
    let mut tables = Tables::blank();
    tables.ascend(cell, net, &[])?;
    place(cell, net.wire, &tables, wires, offsets)
}
