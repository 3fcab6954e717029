// The lines of an audit after a record's name (RULES 11).
#![tactic(auto)]

ghost use Rattle.std.specs.Prelude.{◌≤◌, length};
ghost use Rattle.reply.specs.Said.{Shows};
ghost use Rattle.audit_line.specs.Lines.{most_line, missing_text, RefusedSays, LegalSays};

use rules::Refusal;
use tally::Found;

// The bytes of the line, and what was found.
#[derive(Clone, Copy)]
pub struct Audited {
    pub bytes: usize,
    pub found: Found,
}

// What may be amiss with a record's files.
#[derive(Clone, Copy)]
pub enum Missing {
    NoNet,
    NetUnreadable,
    NoPlacement,
    PlacementUnreadable,
}

// A refusal, after a word that says what is at fault.
pub fn refuse(out: &mut [u8], word: &[u8], why: Refusal) -> Audited
    requires { (length word.now ≤ 64) × (most_line ≤ length out.old) }
    ensures { RefusedSays word.now why out.new result }
{
    Audited {
        bytes: answer::put_refusal(out, word, why),
        found: Found::Refused,
    }
}

// `legal N least M`, and whether they are the same.
pub fn tell_legal(count: u64, least: u64, out: &mut [u8]) -> Audited
    requires { most_line ≤ length out.old }
    ensures { LegalSays count least out.new result }
{
    let line = answer::pair_line(b": legal ", count, b" least ", least);
    Audited {
        bytes: answer::put_line(out, 0, line),
        found: if count == least {
            Found::Least
        } else {
            Found::Legal
        },
    }
}

// The line of a record with such a file.
pub fn missing_line(missing: Missing, out: &mut [u8]) -> usize
    requires { most_line ≤ length out.old }
    ensures { Shows (missing_text missing) out.new result }
{
    let line: &[u8] = match missing {
        Missing::NoNet => b": no net file\n",
        Missing::NetUnreadable => b": net file unreadable\n",
        Missing::NoPlacement => b": no placement file\n",
        Missing::PlacementUnreadable => b": placement file unreadable\n",
    };
    answer::put(out, 0, line)
}
