// Theorems alone: a beam is built part by part (specs/ has the statements, proofs/ the proofs).
#![tactic(auto)]
