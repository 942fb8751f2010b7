// Coefficients from local ordinates: the theorems alone (specs/ has the statements, proofs/ the proofs).
#![tactic(auto)]
