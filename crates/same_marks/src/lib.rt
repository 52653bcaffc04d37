// No code: what is claimed of the marks of a string that is walked backwards or restarted stands in specs/, its proof in proofs/.
#![tactic(auto)]
