// The lowering and what bits need: laws only, in specs/.
#![tactic(auto)]
