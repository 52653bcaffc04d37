// No code: what is claimed of the numbers of buoys over all calls that write a string stands in specs/, its proof in proofs/.
#![tactic(auto)]
