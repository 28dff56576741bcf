// What the walk's calls keep of its invariant, that the model's fuel is enough, and lists of steps lowered by calls of the walk, one by one: laws only, in specs/.
#![tactic(auto)]
