// What the next command does, before any machine decides on it.
ghost use Rattle.awhile.specs.declared.Sort.TheVariants.{Command};
ghost use Rattle.reader.specs.Index.{HasSort};
ghost use Rattle.stepping.specs.Actions.{Looked};

use crate::evaluate::Values;
use awhile::Node;
use directives::change::{Back, Change, Shown};

#[derive(Clone, Copy)]
pub enum Action {
    Quiet(Change),
    Show(Shown),
}

// What the command of a node does.
pub fn look_at(values: &Values, n: usize) -> Action
    requires { HasSort values.now.table.now Command n }
    ensures { Looked values.now.table.now values.now.variables.now n result }
{
    match values.table.command(n) {
        Node::Assign { variable, value } => {
            let value = values.value(value);
            Action::Quiet(Change::Assign { variable, value })
        }
        Node::Sequence { first, second } => {
            let back = Back::Two {
                below: second,
                next: first,
            };
            Action::Quiet(Change::PutBack { back })
        }
        Node::If { condition, yes, no } => Action::Show(Shown::Fork {
            value: values.truth(condition),
            yes: Back::One { next: yes },
            no: Back::One { next: no },
        }),
        Node::While { condition, body } => Action::Show(Shown::Fork {
            value: values.truth(condition),
            yes: Back::Two {
                below: n,
                next: body,
            },
            no: Back::Nothing,
        }),
        Node::Read {
            variable,
            array,
            index,
        } => {
            let index = values.value(index);
            Action::Show(Shown::Get {
                variable,
                array,
                index,
            })
        }
        Node::Write {
            array,
            index,
            value,
        } => {
            let index = values.value(index);
            let value = values.value(value);
            Action::Show(Shown::Put {
                array,
                index,
                value,
            })
        }
        Node::Skip => Action::Quiet(Change::PutBack {
            back: Back::Nothing,
        }),
        // no other node is a command
        _ => Action::Quiet(Change::PutBack {
            back: Back::Nothing,
        }),
    }
}
