// The code of a call, and the law that running it delivers every argument and every result.
#![tactic(auto)]
