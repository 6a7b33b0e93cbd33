// The examples that document 01 marks M, as one table (specs/Table.antt) with one joint statement (proofs/Joint.antt).
// Nothing here runs.
#![tactic(auto)]
