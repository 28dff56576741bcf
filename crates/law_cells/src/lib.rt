// Arithmetic and comparison cells: their nets stand for their operations. The laws are in specs/.
#![tactic(auto)]
