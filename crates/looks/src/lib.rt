// What a look costs, and the tests of one look.
//
// Ported from cachanova/schemweave, commit c4a1a2c60a, crates/schemweave/src/boundary_bundles.rs
// (Apache-2.0, see NOTICE). What the slices hold, and how the geometry visits are lent, is said in
// crate checks.

#![tactic(auto)]

ghost use Rattle.std.specs.Prelude.{◌≡◌, ◌+◌, ◌*◌, ◌<◌, length, is_ok, IfErr};
ghost use Rattle.refusal.specs.declared.Refusal.TheVariants.{GeometryVisitsSpent};
ghost use Rattle.drawing.specs.Build.{tap_of};
ghost use Rattle.drawing.specs.Check.{own, clash};
ghost use Rattle.checks.specs.Purse.{charged};
ghost use Rattle.checks.specs.Lent.{taps_lent, chosen_lent};

use board::Edge;
use checks::{ChosenRoutes, MemberTaps, Rules};
use drawing::GeometryVisits;
use geometry::{Point, Segment};
use refusal::Refusal;

// consume_geometry_visit: one visit is paid before each look, if one is left (search_lists::charge pays one of the
// other purse, which is another type).
#[tactic(auto, using(checks::proofs::TestSteps::charge_none, checks::proofs::TestSteps::charge_one))]
pub fn charge(visits: &mut GeometryVisits) -> Result<(), Refusal>
    ensures paid { (is_ok result, visits.new.0) ≡ charged visits.old.0 }
    ensures refusal { IfErr result (λ r. r ≡ GeometryVisitsSpent) }
{
    if visits.0 == 0 {
        return Err(Refusal::GeometryVisitsSpent);
    }
    visits.0 -= 1;
    Ok(())
}

// ---- the routes that are looked at

// Whether route e is chosen.
pub fn is_chosen(chosen: ChosenRoutes, e: usize) -> bool
    requires { e < length chosen.routes.counts.now }
    ensures { result ≡ chosen_lent chosen.entry e }
{
    chosen.mask.is_none_or(|mask| mask[e])
}

// ---- verify_new_bundle_route_contacts

#[tactic(auto, unfolding(drawing::specs::Check::clash))]
pub fn clashes(rules: Rules, bus: Segment, tap: Option<Point>, run: Segment) -> bool
    ensures { result ≡ clash rules.options rules.permits_crossings bus tap run }
{
    let spacing = rules.options.minimum_parallel_wire_spacing;
    let kind = contact_test::contact_kind(bus, run, tap);
    contact_test::is_disallowed(kind, rules.permits_crossings)
        || contact_test::parallel_segments_are_too_close(bus, run, spacing)
}

// A route's tap among those of a bundle.
pub fn tap_on_route(own: MemberTaps, e: usize) -> Option<Point>
    ensures { result ≡ tap_of (taps_lent own.entry) e }
{
    let mut tapped = own.members.iter().zip(own.taps);
    tapped.find(|t| t.0.edge == e).map(|t| *t.1)
}

// ---- verify_one_bundle_route_node_interiors

#[tactic(auto, unfolding(drawing::specs::Check::own))]
pub fn is_own(e: Edge, j: usize) -> bool
    ensures { result ≡ own e j }
{
    (j == e.source) | (j == e.target)
}
