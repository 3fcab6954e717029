// What one pass over a net of buffers keeps, and that it is a least completion of the given ones: definitions and laws, no code.
#![tactic(auto)]
