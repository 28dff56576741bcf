// Laws only, in specs/: the call beside the one that asked for the former, larger scratch.
#![tactic(auto)]
