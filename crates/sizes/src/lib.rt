// No code: what a call at one node limit says of the call at a larger one.
#![tactic(auto)]
