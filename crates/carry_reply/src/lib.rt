// What the verb `carry` says of a placement taken to a net that eases its own.
#![tactic(auto)]

ghost use Rattle.std.specs.Prelude.{◌≤◌, ◌≡◌, Ok, length};
ghost use Rattle.rules.specs.Net.{net_of};
ghost use Rattle.rules.specs.Load.{entries};
ghost use Rattle.rules.specs.Judge.{judged};
ghost use Rattle.placement_file.specs.File.{placement_bytes};
ghost use Rattle.answer.specs.Text.{counted_text};
ghost use Rattle.reply.specs.Said.{answered, Replies, most_text, most_file};
ghost use Rattle.carry_reply.specs.Carries.{carried_word, Fit, carry_said};

use carry::NotCarried;
use reply::{Reply, Status};
use rules::{LentNet, LentPlacement};

// `carried N`, the entries of a placement that is fit to be written, and their file.
fn tell(placement: &LentPlacement, out: &mut [u8], file: &mut [u8]) -> Reply
    requires fit { Fit placement.now.wires.now placement.now.offsets.now }
    requires room { (most_text ≤ length out.old) × (most_file ≤ length file.old) }
    ensures { Replies (answered (counted_text carried_word placement.now.wires.now placement.now.offsets.now) (placement_bytes (entries placement.now.wires.now placement.now.offsets.now))) out.new file.new result }
{
    let text = answer::put_counted(out, b"carried ", placement);
    let size = reply::write_file(placement, file);
    Reply {
        text,
        file: size,
        status: Status::Answered,
    }
}

// Takes a placement of the first net to the second; both are sound, as nets that were read from files are. The offsets are cut.
pub fn carry(
    first: &LentNet,
    second: &LentNet,
    wires: &[u16],
    offsets: &mut [u32],
    out: &mut [u8],
    file: &mut [u8],
) -> Reply
    requires first_sound { judged (net_of first.now) ≡ Ok tt }
    requires second_sound { judged (net_of second.now) ≡ Ok tt }
    requires room { (most_text ≤ length out.old) × (most_file ≤ length file.old) }
    ensures { Replies (carry_said (net_of first.now) (net_of second.now) wires.now offsets.old) out.new file.new result }
{
    match carry::carry(first, second, wires, offsets) {
        Ok(_) => tell(&LentPlacement { wires, offsets }, out, file),
        // Neither net is refused: both are sound.
        Err(NotCarried::FirstNet(why) | NotCarried::SecondNet(why) | NotCarried::Carry(why)) =>
            reply::refuse(out, b"", why),
    }
}
