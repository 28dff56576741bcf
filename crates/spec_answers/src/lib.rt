// What the lowering call's answers say: definitions only, in specs/.
#![tactic(auto)]
