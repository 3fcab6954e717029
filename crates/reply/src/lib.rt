// What a verb of the desk answers: a text, the bytes of a placement file where there is one, and a status (RULES 11).
#![tactic(auto)]

ghost use Rattle.std.specs.Prelude.{◌+◌, ◌≤◌, List, ◌≡◌, length};
ghost use Rattle.rules.specs.Load.{entries};
ghost use Rattle.rules.specs.Figures.{most_entries};
ghost use Rattle.placement_file.specs.File.{columns_of, placement, placement_bytes};
ghost use Rattle.reply.specs.Said.{Shows, Replies, byte_of, refusal, most_text, most_file};

use rules::{LentPlacement, Refusal};

// The bytes of the text, those of the placement file, and the status.
#[derive(Clone, Copy)]
pub struct Reply {
    pub text: usize,
    pub file: usize,
    pub status: Status,
}

// How a call of the desk ended.
#[derive(Clone, Copy)]
pub enum Status {
    Answered,
    Refused,
}

impl Status {
    // The character that is written to the launcher.
    pub fn byte(self) -> u8
        ensures { result ≡ byte_of self }
    {
        match self {
            Status::Answered => b'0',
            Status::Refused => b'1',
        }
    }
}

// A refusal: its line after a word that says which file is at fault, and no file.
pub fn refuse(out: &mut [u8], word: &[u8], why: Refusal) -> Reply
    requires { (length word.now ≤ 64) × (most_text ≤ length out.old) }
    ensures { (file : List _) → Replies (refusal word.now why) out.new file result }
{
    Reply {
        text: answer::put_refusal(out, word, why),
        file: 0,
        status: Status::Refused,
    }
}

// The placement file of a placement that is fit to be written: neither its columns nor the room are refused.
pub fn write_file(given: &LentPlacement, file: &mut [u8]) -> usize
    requires fit { columns_of given.now.wires.now given.now.offsets.now ≡ placement (entries given.now.wires.now given.now.offsets.now) }
    requires few { length (entries given.now.wires.now given.now.offsets.now) ≤ most_entries }
    requires room { most_file ≤ length file.old }
    ensures { Shows (placement_bytes (entries given.now.wires.now given.now.offsets.now)) file.new result }
{
    placement_writer::write_placement(given, file).unwrap()
}
