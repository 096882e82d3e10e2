// The variables that can make the expressions of a table secret, as masks: collected once a table, they give an expression's label under any
// labelling.
#![tactic(auto)]

pub mod collecting;
pub mod expressions;
pub mod meeting;
pub mod named;
pub mod noughts;
