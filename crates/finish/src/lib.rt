// Finishes a half-buffered net: the fewest entries that, added to the given ones, make the whole legal.
#![tactic(auto)]

ghost use Rattle.std.specs.Prelude.{◌≡◌};
ghost use Rattle.rules.specs.Net.{net_of};
ghost use Rattle.rules.specs.Load.{entries};
ghost use Rattle.rules.specs.Sound.{SoundNet};
ghost use Rattle.adding.specs.Walks.{added, IsReady};
ghost use Rattle.adding.specs.Given.{Stood, Leads};
ghost use Rattle.finish.specs.Given.{Fresh, Placed};
ghost use Rattle.finish.specs.Answer.{Outcome, Answered, half_judged};

use adding::Half;
use buffers::{PLACES, Tables};
use rules::{LentNet, LentPlacement, Refusal};
use states::Cell;

// Each wire's lead: the offset of its topmost given entry, which comes last.
fn mark_leads(given: &LentPlacement, leads: &mut [Option<u32>; PLACES])
    requires { Fresh given.now.wires.now given.now.offsets.now leads.old }
    ensures { Leads given.now.wires.now given.now.offsets.now leads.new }
{
    for e in 0..given.wires.len() {
        let entry = given.entry(e);
        leads[entry.wire as usize] = Some(entry.offset);
    }
}

// 9 where the added entries are more than the room, else they are written.
fn place(half: &Half, wires: &mut [u16], offs: &mut [u32]) -> Result<usize, Refusal>
    requires { IsReady half.now }
    ensures { Placed (added half.now) wires.old offs.old wires.new offs.new result }
{
    let m = half.count_all();
    if columns::room(wires.len(), offs.len()) < m {
        return Err(Refusal::NoRoom(m));
    }
    half.write_all(wires, offs, m as usize);
    Ok(m as usize)
}

// A net that is sound, of buffers, with given entries that stand on it: the way up, then 8, then 9, then the entries.
fn finish_sound(
    net: &LentNet,
    given: &LentPlacement,
    wires: &mut [u16],
    offs: &mut [u32],
) -> Result<usize, Refusal>
    requires { SoundNet (net_of net.now) × (net.now.limits.repeater ≡ 0) × Stood (net_of net.now) given.now.wires.now given.now.offsets.now }
    ensures { Outcome (net_of net.now) (entries given.now.wires.now given.now.offsets.now) wires.old offs.old wires.new offs.new result }
{
    let cell = Cell::of(net.limits);
    let mut leads = [None; PLACES];
    let mut tables = Tables::blank();
    mark_leads(given, &mut leads);
    tables.ascend(cell, net, &leads)?;
    let half = Half {
        cell: cell,
        wire: net.wire,
        tables: &tables,
        given: given,
    };
    place(&half, wires, offs)
}

// The net's own refusals, then 3 at 0 for type 1, then the placement's 7 and 10.
fn judge_half(net: &LentNet, given: &LentPlacement) -> Result<(), Refusal>
    ensures { result ≡ half_judged (net_of net.now) given.now.wires.now given.now.offsets.now }
{
    net::judge(net)?;
    if net.limits.repeater != 0 {
        return Err(Refusal::OutOfRange(0));
    }
    standing::entries_stand(net.wire, given)
}

// The entries that are added into the lent columns, or a refusal that leaves them as they came.
pub fn finish(
    net: &LentNet,
    given: &LentPlacement,
    wires: &mut [u16],
    offs: &mut [u32],
) -> Result<usize, Refusal>
    ensures { Answered (half_judged (net_of net.now) given.now.wires.now given.now.offsets.now) (net_of net.now) (entries given.now.wires.now given.now.offsets.now) wires.old offs.old wires.new offs.new result }
{
    judge_half(net, given)?;
    finish_sound(net, given, wires, offs)
}
