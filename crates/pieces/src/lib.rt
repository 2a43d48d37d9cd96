// Whether a net is one piece, decided with its proof: specs/ says by what labels, proofs/ that they tell. No code.
#![tactic(auto)]
