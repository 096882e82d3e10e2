// Values of expressions, straight from the table: numbers and truths call each other, and a child's node number is lower. `value` and `truth`
// leave the parts of a node to functions of their own: a node without parts is quick. Each asks for the sort of its node: parts are bare numbers.
ghost use Rattle.std.specs.Prelude.{◌≡◌, ◌*◌, cond, not, ◌&&◌, length};
ghost use Rattle.awhile.specs.declared.Sort.TheVariants.{Numeric, Truth};
ghost use Rattle.reader.specs.Index.{table_of, HasSort};
ghost use Rattle.stepping.specs.Evaluation.{value_in, holds_in};

use awhile::Node;
use bytes_le::get::whole_u32;
use reader::accepted::Accepted;

// A table, and a word for each variable that it declares.
#[derive(Drop)]
pub struct Values<'a> {
    pub table: &'a Accepted<'a>,
    pub variables: &'a [u8],
    pub ghost long: { length variables.now ≡ 4 * (table_of table.now).variables },
}

// The values of two numeric nodes.
#[derive(Clone, Copy)]
struct Operands {
    left: u32,
    right: u32,
}

impl<'a> Values<'a> {
    // The values of two parts, as most numeric nodes ask for them.
    #[cycle(values)]
    fn both_values(&self, left: usize, right: usize) -> Operands
        requires { HasSort self.now.table.now Numeric left × HasSort self.now.table.now Numeric right }
        ensures { (result.left ≡ value_in self.now.table.now self.now.variables.now left)
            × (result.right ≡ value_in self.now.table.now self.now.variables.now right) }
    {
        let left = self.value(left);
        let right = self.value(right);
        Operands { left, right }
    }

    // The value of one of two numeric nodes, as a truth node chooses.
    #[cycle(values)]
    fn chosen(&self, condition: usize, yes: usize, no: usize) -> u32
        requires { HasSort self.now.table.now Truth condition
            × HasSort self.now.table.now Numeric yes × HasSort self.now.table.now Numeric no }
        ensures { result ≡ cond (holds_in self.now.table.now self.now.variables.now condition)
            (value_in self.now.table.now self.now.variables.now yes) (value_in self.now.table.now self.now.variables.now no) }
    {
        if self.truth(condition) {
            self.value(yes)
        } else {
            self.value(no)
        }
    }

    // The value of a numeric node.
    #[cycle(values)]
    pub fn value(&self, n: usize) -> u32
        requires { HasSort self.now.table.now Numeric n }
        ensures { result ≡ value_in self.now.table.now self.now.variables.now n }
    {
        match self.table.numeric(n) {
            Node::Number { value } => value,
            Node::Variable { variable } => whole_u32(self.variables, 4 * variable),
            Node::Add { left, right } => {
                let of = self.both_values(left, right);
                of.left.wrapping_add(of.right)
            }
            Node::Subtract { left, right } => {
                let of = self.both_values(left, right);
                of.left.wrapping_sub(of.right)
            }
            Node::Multiply { left, right } => {
                let of = self.both_values(left, right);
                of.left.wrapping_mul(of.right)
            }
            Node::Choice { condition, yes, no } => self.chosen(condition, yes, no),
            // no other node is a number
            _ => 0,
        }
    }

    // Whether a truth node is false.
    #[cycle(values)]
    fn is_false(&self, part: usize) -> bool
        requires { HasSort self.now.table.now Truth part }
        ensures { result ≡ not (holds_in self.now.table.now self.now.variables.now part) }
    {
        !self.truth(part)
    }

    // Whether two truth nodes are both true.
    #[cycle(values)]
    fn both_true(&self, left: usize, right: usize) -> bool
        requires { HasSort self.now.table.now Truth left × HasSort self.now.table.now Truth right }
        ensures { result ≡ (holds_in self.now.table.now self.now.variables.now left
            && holds_in self.now.table.now self.now.variables.now right) }
    {
        self.truth(left) && self.truth(right)
    }

    // The value of a truth node.
    #[cycle(values)]
    pub fn truth(&self, n: usize) -> bool
        requires { HasSort self.now.table.now Truth n }
        ensures { result ≡ holds_in self.now.table.now self.now.variables.now n }
    {
        match self.table.truth(n) {
            Node::Constant { value } => value == 1,
            Node::Equal { left, right } => {
                let of = self.both_values(left, right);
                of.left == of.right
            }
            Node::Less { left, right } => {
                let of = self.both_values(left, right);
                of.left < of.right
            }
            Node::Not { truth } => self.is_false(truth),
            Node::And { left, right } => self.both_true(left, right),
            // no other node is a truth
            _ => false,
        }
    }
}
