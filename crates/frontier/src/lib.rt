// The frontier that the solver computes, and why its answer is the least: definitions and laws alone.
#![tactic(auto)]
