// The limits on nets and list words are met and nothing else: laws only, in specs/.
#![tactic(auto)]
