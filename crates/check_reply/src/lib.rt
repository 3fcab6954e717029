// What the verbs `check` and `loads` say of a placement on a net.
#![tactic(auto)]

ghost use Rattle.std.specs.Prelude.{◌≤◌, List, length};
ghost use Rattle.rules.specs.Net.{net_of};
ghost use Rattle.reply.specs.Said.{Replies, most_text};
ghost use Rattle.check_reply.specs.Checks.{check_said, loads_said};

use reply::{Reply, Status};
use rules::{LentNet, LentPlacement};

// The entries of a placement's columns.
const ENTRIES: usize = 4096;

// `legal N` and `source drives L`, or the checker's refusal.
pub fn check(net: &LentNet, placement: &LentPlacement, out: &mut [u8]) -> Reply
    requires { most_text ≤ length out.old }
    ensures { (file : List _) → Replies (check_said (net_of net.now) placement.now.wires.now placement.now.offsets.now) out.new file result }
{
    match checker::check(net, placement) {
        Ok(legal) => {
            let after = answer::put_line(out, 0, answer::count_line(b"legal ", legal.count as u64));
            let text = answer::put_line(
                out,
                after,
                answer::count_line(b"source drives ", legal.source),
            );
            Reply {
                text,
                file: 0,
                status: Status::Answered,
            }
        }
        Err(why) => reply::refuse(out, b"", why),
    }
}

// What each entry drives, and the source, or the list's refusal. An overloaded placement is listed too.
pub fn list(net: &LentNet, placement: &LentPlacement, out: &mut [u8]) -> Reply
    requires { most_text ≤ length out.old }
    ensures { (file : List _) → Replies (loads_said (net_of net.now) placement.now.wires.now placement.now.offsets.now) out.new file result }
{
    let mut loads = [0u64; ENTRIES];
    match listing::list_drives(net, placement, &mut loads) {
        Ok(listed) => {
            let text = answer::put_loads(out, 0, placement, &loads[..listed.count], listed.source);
            Reply {
                text,
                file: 0,
                status: Status::Answered,
            }
        }
        Err(why) => reply::refuse(out, b"", why),
    }
}
