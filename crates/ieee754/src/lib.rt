// Laws of the kit's floats. There is no code here: the definitions are in specs/, the laws in proofs/.
#![tactic(auto)]
