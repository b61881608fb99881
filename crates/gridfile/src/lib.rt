// No code: what is promised of the two calls, in specs/, and its proofs, over the format, the writer and the reader.
#![tactic(auto)]
