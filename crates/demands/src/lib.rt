// The customer's three demands and requests, as statements over the definitions of the libraries: specs/ states them, proofs/ shows that they are met. No code.
#![tactic(auto)]
