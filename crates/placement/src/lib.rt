// The judge of a placement's columns: whether a file can hold them (RULES 3.9, 5.9).
#![tactic(auto)]

ghost use Rattle.std.specs.Prelude.{◌≡◌, length};
ghost use Rattle.placement_file.specs.File.{entry_in_range, ranges_judged, columns_judged};

use placement_file::ENTRIES;
use rules::{Entry, LentPlacement, Refusal};

// An entry's wire and offset are in their ranges.
pub fn entry_in_range(e: Entry) -> bool
    ensures { result ≡ entry_in_range e }
{
    (1..=1024).contains(&e.wire) && e.offset <= 10_000_000
}

// 3 at the first entry out of its range.
#[tactic(auto, unfolding(placement_file::specs::File::range_judged), using(placement_file::proofs::Judging::in_turn))]
fn judge_ranges(placement: &LentPlacement) -> Result<(), Refusal>
    requires { length placement.now.offsets.now ≡ length placement.now.wires.now }
    ensures { result ≡ ranges_judged placement.now.wires.now placement.now.offsets.now }
{
    for i in 0..placement.wires.len() {
        if !entry_in_range(placement.entry(i)) {
            return Err(Refusal::OutOfRange(i));
        }
    }
    Ok(())
}

// 7 where the columns are unequal or too long, then 3: the first refusal, or that they are sound.
#[tactic(auto, unfolding(placement_file::specs::File::columns_judged))]
pub fn judge(placement: &LentPlacement) -> Result<(), Refusal>
    ensures { result ≡ columns_judged placement.now.wires.now placement.now.offsets.now }
{
    let count = placement.wires.len();
    if placement.offsets.len() != count || ENTRIES < count {
        return Err(Refusal::WrongColumns);
    }
    judge_ranges(placement)
}
