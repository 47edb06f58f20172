// What the definitions mean, proved about the definitions alone: the words are in specs/, the proofs in proofs/, and Top of proofs/
// is to be read first. There is no function here.
#![tactic(auto)]
