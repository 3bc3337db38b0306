// Where each point stands after deferred calls and maintain, what a circle reports then, and what maintain counts: statements in specs/, and no code is
// needed for them.
#![tactic(auto)]
