// Laws of a trace's lines and histories: no code of its own.
#![tactic(auto)]
