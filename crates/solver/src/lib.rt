// A least placement of a net: one call, and a solver of its own for each type.
#![tactic(auto)]

ghost use Rattle.rules.specs.Net.{net_of};
ghost use Rattle.rules.specs.Judge.{judged};
ghost use Rattle.solution.specs.Answer.{Answered};

use rules::{LentNet, Refusal};

// The entries of a least placement into the lent columns, or a refusal that leaves them as they came.
pub fn solve(net: &LentNet, wires: &mut [u16], offsets: &mut [u32]) -> Result<usize, Refusal>
    ensures { Answered (judged (net_of net.now)) (net_of net.now) wires.old offsets.old wires.new offsets.new result }
{
    net::judge(net)?;
    if net.limits.repeater == 0 {
        return buffered::solve(net, wires, offsets);
    }
    inverted::solve(net, wires, offsets)
}
