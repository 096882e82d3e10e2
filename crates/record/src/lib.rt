// One record of a table: where it stands and how long it is, what it holds, and why it is refused; and how often each node is a child.
#![tactic(auto)]

pub mod checks;
pub mod declarations;
pub mod decode;
pub mod forms;
pub mod layout;
pub mod mask;
pub mod node;
pub mod uses;
