// Laws of chains of iterators in the words of the rules: definitions and proofs in specs/, no code.
#![tactic(auto)]
