// "Step back": the definition of the journal and its theorems stand in specs/ and proofs/. No function stands here yet.
#![tactic(auto)]
