// Laws of the expressions that an image stands for. No code.
#![tactic(auto)]
