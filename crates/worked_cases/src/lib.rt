// The worked cases of the scope that are proved: the table is in specs/, its proof in proofs/.
// No function stands here.
#![tactic(auto)]
