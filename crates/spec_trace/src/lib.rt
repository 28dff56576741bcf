// The trace program of change request Q-4: definitions only, in specs/.
#![tactic(auto)]
