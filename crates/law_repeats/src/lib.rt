// A builder call made again makes no net and gives the same ones. The laws are in specs/.
#![tactic(auto)]
