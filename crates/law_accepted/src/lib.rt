// What an accepted image tells, in the terms of later code: laws in specs/, no code.
#![tactic(auto)]
