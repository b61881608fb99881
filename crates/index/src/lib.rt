// No code: the index of the thesis and the proof that a position is the rank by it.
#![tactic(auto)]
