// The tally of an audit: how many records were found least, legal, refused and unread (RULES 11).
#![tactic(auto)]

ghost use Rattle.std.specs.Prelude.{◌≡◌, ◌≤◌, ◌<◌, length};
ghost use Rattle.reply.specs.Said.{Shows, byte_of};
ghost use Rattle.tally.specs.Tallied.{Sums, Counts, tally_line, most_tally, status_of};

use reply::Status;

// What was found of a record: a legal placement with the least count, a legal one with more entries, a refusal, or a file that could not be read.
#[derive(Clone, Copy)]
pub enum Found {
    Least,
    Legal,
    Refused,
    Unread,
}

// How many records there were, and how many of each.
#[derive(Clone, Copy, Default)]
pub struct Tally {
    pub records: u64,
    pub least: u64,
    pub legal: u64,
    pub refused: u64,
    pub unread: u64,
}

impl Tally {
    // One record more.
    pub fn count(&mut self, found: Found)
        requires { Sums self.old × (self.old.records < 18446744073709551615) }
        ensures { Counts self.old found self.new }
    {
        self.records += 1;
        match found {
            Found::Least => self.least += 1,
            Found::Legal => self.legal += 1,
            Found::Refused => self.refused += 1,
            Found::Unread => self.unread += 1,
        }
    }

    // `records R least A legal B refused C unread D`.
    #[tactic(auto, using(answer::proofs::Digits::said_in_64))]
    pub fn line(self, out: &mut [u8]) -> usize
        requires { most_tally ≤ length out.old }
        ensures { Shows (tally_line self) out.new result }
    {
        let mut at = answer::say(out, 0, b"records ", self.records);
        at = answer::say(out, at, b" least ", self.least);
        at = answer::say(out, at, b" legal ", self.legal);
        at = answer::say(out, at, b" refused ", self.refused);
        at = answer::say(out, at, b" unread ", self.unread);
        answer::put(out, at, b"\n")
    }

    // Answered where every record is legal.
    pub fn status(self) -> Status
        ensures { byte_of result ≡ status_of self }
    {
        if self.refused == 0 && self.unread == 0 {
            Status::Answered
        } else {
            Status::Refused
        }
    }
}
