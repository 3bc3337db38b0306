// The worked rows of document 01, as one table: it is in specs/, and no code is needed for it.
#![tactic(auto)]
