// Laws of the ranges, of narrowed adders, fused carries and zero expressions. No code.
#![tactic(auto)]
