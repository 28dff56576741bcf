// Gates, lists of gates, sources and ports: the nets that the builder gives stand for what their names say. The laws are in specs/.
#![tactic(auto)]
