// No code: what is claimed of the counts and the clean points of strings that are changed (demand 3), of the sums of the counts and of
// the clean points of a listing stands in specs/, its proof in proofs/.
#![tactic(auto)]
