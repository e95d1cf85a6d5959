// The corridors of the edges, lent.

#![tactic(auto)]

ghost use Rattle.std.specs.Prelude.{◌≡◌, length};
ghost use Rattle.limits.specs.Limits.{max_edges};

use crate::Bound;

// The corridor of each edge, among inputs and among outputs.
#[derive(Clone, Copy)]
pub struct Corridors<'a> {
    pub inputs: &'a [Bound],
    pub outputs: &'a [Bound],
    pub ghost inputs_long: { length inputs.now ≡ max_edges },
    pub ghost outputs_long: { length outputs.now ≡ max_edges },
}
