// The demands of docs/RULES.md for the lowering call, of all bytes, limits and buffers: laws only, in specs/.
#![tactic(auto)]
