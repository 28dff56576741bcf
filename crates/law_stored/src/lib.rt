// What the lowering writes is accepted and reads back as what was lowered: laws only, in specs/.
#![tactic(auto)]
