// Graphs, walks and edge slots: definitions and laws only.
#![tactic(auto)]
