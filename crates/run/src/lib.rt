// The run of the tree that a view was translated to, over a store's bytes, and the answer's rows.
// The definitions are in specs/: Run has the run of any tree, Answer the answer's cells and bytes.
#![tactic(auto)]

mod eval;
mod folds;
mod rows;
mod scopes;
mod words;

pub use rows::answer;
