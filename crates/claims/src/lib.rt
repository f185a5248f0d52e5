// Every headline theorem on one page, by its full statement: proofs/Claims.antt. The crate has no code.
#![tactic(auto)]
