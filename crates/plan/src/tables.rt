// The tables of a board, lent.

#![tactic(auto)]

ghost use Rattle.std.proofs.Props.{props};
ghost use Rattle.plan.specs.BoardTables.{Sound};

use board::{Bundle, Edge, Member, Options, PlacedNode, Port};

// A board as its options and its tables; what a table names is in the others.
#[derive(Clone, Copy)]
pub struct BoardTables<'a> {
    pub options: Options,
    pub nodes: &'a [PlacedNode],
    pub ports: &'a [Port],
    pub edges: &'a [Edge],
    pub bundles: &'a [Bundle],
    pub members: &'a [Member],
    pub ghost sound: { Sound nodes.now ports.now bundles.now members.now } by { Prim.hlevel props },
}
