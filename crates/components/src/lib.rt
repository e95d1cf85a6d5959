// The components of the plan: bundles that share edges across the roles, the inputs split from the
// outputs.
//
// Ported from cachanova/schemweave, commit c4a1a2c60a, crates/schemweave/src/boundary_bundles.rs
// (Apache-2.0, see NOTICE): plan_interior_collectors, without its separation.

#![tactic(auto)]

ghost use Rattle.std.specs.Prelude.{◌≡◌};
ghost use Rattle.refusal.specs.declared.Refusal.TheVariants.{NoRoomToSplit};

use limits::MAX_BUNDLES;
use refusal::Refusal;
use search::TapVisits;
use table::Table;

// Places in a table of bundles, in order.
pub type Places = Table<usize, MAX_BUNDLES>;

// How far the bundles of one role go: of inputs the largest minimum and the largest x found, of
// outputs the smallest maximum and the smallest x found.
#[derive(Clone, Copy)]
pub struct Extent {
    pub bound: f64,
    pub desired: f64,
}

// The bundles of one role in a component, and how far they go.
#[derive(Clone, Copy)]
pub struct Group<'a> {
    pub bundles: &'a [usize],
    pub extent: Extent,
}

// That a plan is refused, with the visits left: the clamp of the split would have its low end above its
// high end.
#[derive(Clone, Copy)]
pub struct NoRoom {
    pub left: TapVisits,
}

impl From<NoRoom> for Refusal {
    ghost from_gives = { λ e r. r ≡ NoRoomToSplit };

    fn from(e: NoRoom) -> Refusal {
        Refusal::NoRoomToSplit
    }
}
