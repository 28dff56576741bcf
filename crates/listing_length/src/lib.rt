// How long the listing program's text is at most: laws only, in specs/.
#![tactic(auto)]
