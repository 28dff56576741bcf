// The hash index over gates and cells, and the builder's invariant (`Held`): definitions and laws in specs/, no code.
#![tactic(auto)]
