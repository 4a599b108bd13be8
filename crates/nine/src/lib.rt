#![tactic(auto)]

// The nine sheets of document 01 under one theorem (proofs/Nine.antt), proved of the definitions that the calls' promises use.
