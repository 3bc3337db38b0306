// Statements over histories of the box grid's calls: they are in specs/, and no code is needed for them.
#![tactic(auto)]
