// What the solver answers, a number of entries or a refusal: what it means, and the laws of it. No function.
#![tactic(auto)]
