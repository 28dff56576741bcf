// The bench cases K1 to K12 as one table about the lowering call, and cases beside them: definitions and theorems in specs/, no code.
#![tactic(auto)]
