// What the lowering call's answers say, for all bytes, limits and buffers: laws only, in specs/.
#![tactic(auto)]
