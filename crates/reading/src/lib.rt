// The reading rules of a view, apart from its tree, and the theorem that ties the tree to them.
// The definitions are in specs/: Reading has the value and the classes read, Demands what is proved.
#![tactic(auto)]
