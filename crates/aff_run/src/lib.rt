// Runs of the writer: a begin and any list of calls, and the tree that they describe. There is no code here; specs/
// has the definitions, over those that the contracts cite, and proofs/ the laws from which the demands follow.
#![tactic(auto)]
