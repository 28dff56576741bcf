// Laws of words: that the operators are those of IEEE 1800, and what the lowering needs of them. No code.
#![tactic(auto)]
