// What a directive decides: which one guides a shown step, which cell the step uses, and what it changes.
#![tactic(auto)]

pub mod change;
pub mod fit;
pub mod guide;
pub mod list;
pub mod places;
