// Statements over the calls of trackers, merged in any order: they are in specs/, and no code is needed for them.
#![tactic(auto)]
