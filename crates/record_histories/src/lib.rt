// A history of calls on a table of records is a history of calls on columns: the statements are in specs/ and proofs/laws, and no code is
// needed for them.
#![tactic(auto)]
