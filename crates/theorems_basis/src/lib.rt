// Theorems alone: the published construction is a basis for every legal space (specs/ has the statements, proofs/ the proofs).
#![tactic(auto)]
