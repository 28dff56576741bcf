// The fuel of the lowering is enough: laws only, in specs/.
#![tactic(auto)]
