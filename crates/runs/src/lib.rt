// Closed runs of document 01's call machine (specs/), computed to their landings: the hypotheses of demand 3 can be met (proofs/Hold.antt),
// and no rule is tighter than document 01 has it (proofs/Labels*.antt, Bounds*.antt, Far*.antt, TableBounds.antt). Nothing here runs.
#![tactic(auto)]
