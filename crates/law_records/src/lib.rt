// Records of registers, memories and ports read back from their words: laws only, in specs/.
#![tactic(auto)]
