// Which refusals 6 to 10 the lowering comes to, and what is lowered where it is accepted: laws only, in specs/.
#![tactic(auto)]
