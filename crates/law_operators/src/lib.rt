// Operators lowered from finished operands: their nets stand for the operator's word. The laws are in specs/.
#![tactic(auto)]
