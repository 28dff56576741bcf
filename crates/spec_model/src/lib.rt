// The lowering as a definition: definitions in specs/, no code.
#![tactic(auto)]
