// A placement file, written from two columns: RULES 6.9.
#![tactic(auto)]

ghost use Rattle.std.specs.Prelude.{◌≡◌, ◌+◌, ◌*◌, ◌≤◌, length};
ghost use Rattle.std.proofs.lemmas.List.Edits.{sets};
ghost use Rattle.rules.specs.Load.{entries};
ghost use Rattle.placement_file.specs.File.{columns_of, placement_bytes, WroteAs};

use field::Value;
use placement_file::ENTRIES;
use rules::{LentPlacement, Refusal};

// Writes the count, the entries and the end, each to the rest of the buffer, right behind its predecessor. There is room for each.
fn write_fields(placement: &LentPlacement, out: &mut [u8])
    requires { let n = length placement.now.wires.now in (length placement.now.offsets.now ≡ n) × (n ≤ ENTRIES) × (8 + 9 * n ≤ length out.old) }
    ensures { out.new ≡ sets out.old 0 (placement_bytes (entries placement.now.wires.now placement.now.offsets.now)) }
{
    let n = placement.wires.len();
    let mut at = field_writer::write_field(out, Value::Count(n as u16)).unwrap();
    for i in 0..n {
        at += field_writer::write_field(&mut out[at..], Value::Entry(placement.entry(i))).unwrap();
    }
    field_writer::write_field(&mut out[at..], Value::End).unwrap();
}

// Writes the file of a placement. The columns are judged, and the room, in the order of RULES 5.9, before anything is written.
#[tactic(auto, unfolding(placement_file::specs::File::columns_of), using(crate::proofs::Writing::writing))]
pub fn write_placement(placement: &LentPlacement, out: &mut [u8]) -> Result<usize, Refusal>
    ensures { WroteAs (columns_of placement.now.wires.now placement.now.offsets.now) out.old out.new result }
{
    placement::judge(placement)?;
    let size = 8 + 9 * placement.wires.len();
    if out.len() < size {
        return Err(Refusal::NoRoom(size as u64));
    }
    write_fields(placement, out);
    Ok(size)
}
