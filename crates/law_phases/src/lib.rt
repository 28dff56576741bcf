// Sources reserved, memories, registers and outputs connected: laws only, in specs/.
#![tactic(auto)]
