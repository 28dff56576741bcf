// Which bits need which, and which are needed: definitions only, in specs/.
#![tactic(auto)]
