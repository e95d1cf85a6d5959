// The runs of routes against the interiors of the nodes.
//
// Ported from cachanova/schemweave, commit c4a1a2c60a, crates/schemweave/src/boundary_bundles.rs
// (Apache-2.0, see NOTICE). What the slices hold, and how the geometry visits are lent, is said in
// crate checks.

#![tactic(auto)]

ghost use Rattle.std.specs.Prelude.{◌≡◌};
ghost use Rattle.geometry.specs.Points.{runs};
ghost use Rattle.geometry.specs.Lent.{route_lent};
ghost use Rattle.drawing.specs.Check.{walk, inside_tests};
ghost use Rattle.checks.specs.Purse.{told};

use board::{Edge, PlacedNode};
use drawing::GeometryVisits;
use geometry::RouteView;
use refusal::Refusal;

// ---- verify_one_bundle_route_node_interiors

// The runs of the route of edge e, each against every node but the edge's own.
pub fn route_inside(
    nodes: &[PlacedNode],
    e: Edge,
    route: RouteView,
    visits: &mut GeometryVisits,
) -> Result<(), Refusal>
    ensures { told result visits.new.0 ≡ walk 12 (inside_tests nodes.now e (runs (route_lent route.entry))) visits.old.0 }
{
    for i in 0..route.count.saturating_sub(1) {
        let run = route_views::view_run(route, i);
        if contact_test::is_slanted(run) {
            return Err(Refusal::RouteThroughNode);
        }
        for (j, node) in nodes.iter().enumerate() {
            if looks::is_own(e, j) {
                continue;
            }
            looks::charge(visits)?;
            if shapes::run_passes_inside(run, node.body) {
                return Err(Refusal::RouteThroughNode);
            }
        }
    }
    Ok(())
}
