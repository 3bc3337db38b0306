// The three demands, stated over the grids' calls: the statements are in specs/, and no code is needed for them.
#![tactic(auto)]
