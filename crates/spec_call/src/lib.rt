// The lowering call's promise with the lowering model put in: definitions in specs/, no code.
#![tactic(auto)]
