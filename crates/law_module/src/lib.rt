// An accepted image decodes to a good module: laws only, in specs/.
#![tactic(auto)]
