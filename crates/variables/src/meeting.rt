// Masks of variables: one variable, and whether a labelling calls one of several secret.
ghost use Rattle.std.specs.Prelude.{◌<◌, ◌^◌, ◌≡◌, length, get_or};
ghost use Rattle.variables.specs.Variables.{meet};

use awhile::Labelling;

// The mask of one variable.
#[tactic(auto, using(labels::proofs::Masks::shifted_one))]
pub fn mark(variable: usize) -> u64
    requires { variable < 64 }
    ensures { result ≡ 2 ^ variable }
{
    1u64 << variable
}

// The label of the expression at node n, from the variables that are named for it.
#[tactic(auto, unfolding(crate::specs::Variables::meet))]
pub fn named_label(named: &[u64], labels: Labelling, n: usize) -> bool
    requires { n < length named.now }
    ensures { result ≡ meet labels.variables (get_or named.now n 0) }
{
    labels.variables & named[n] != 0
}
