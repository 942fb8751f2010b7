// What members can count on before they type, stated in specs/ and proved in proofs/. This crate has no code.
#![tactic(auto)]
