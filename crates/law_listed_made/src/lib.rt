// The lowering lists each node and record: laws only, in specs/.
#![tactic(auto)]
