// Both sides of every number and rule that document 01 gives for opening, walk, throw, sweep and the C interface, as one table
// (specs/Table.antt) with one joint statement (proofs/Joint.antt). Nothing here runs.
#![tactic(auto)]
