// The two checks of a new bundle, paid from a purse that is lent.
//
// Ported from cachanova/schemweave, commit c4a1a2c60a, crates/schemweave/src/boundary_bundles.rs
// (Apache-2.0, see NOTICE). What the slices hold, and how the geometry visits are lent, is said in
// crate checks.

#![tactic(auto)]

ghost use Rattle.std.specs.Prelude.{◌≡◌, ◌≤◌, map, length};
ghost use Rattle.plan.specs.MemberColumns.{edges_of};
ghost use Rattle.drawing.specs.Check.{walk, over_routes, contact_tests};
ghost use Rattle.checks.specs.Purse.{told};
ghost use Rattle.checks.specs.CheckRows.{inside_route, Tabled};
ghost use Rattle.route.specs.Lent.{routes_lent};
ghost use Rattle.checks.specs.Lent.{chosen_lent, drawn_lent, RowsLent};

use board::DrawnBundle;
use checks::{BoardSlices, ChosenRoutes, MemberTaps, Rules};
use drawing::GeometryVisits;
use refusal::Refusal;

// The new bundle against every route, then each earlier one against the changed routes and against
// the new one. What it is lent it hands on: parameters and clauses are those of bundle_contacts.
#[tactic(auto, using(checks::proofs::TestSteps::then_on, checks::proofs::TestSteps::then_off), unfolding(drawing::specs::Check::contact_tests, checks::specs::CheckRows::chosen_by))]
pub fn verify_new_bundle_route_contacts(
    rules: Rules,
    new: DrawnBundle,
    priors: &[DrawnBundle],
    table: MemberTaps,
    changed: ChosenRoutes,
    visits: &mut GeometryVisits,
) -> Result<(), Refusal>
    requires { RowsLent table priors.now × Tabled new.first new.count (edges_of table.members.now) table.taps.now }
    ensures { told result visits.new.0 ≡ walk 11 (contact_tests rules.options rules.permits_crossings (drawn_lent table.entry new) (chosen_lent changed.entry) (map (drawn_lent table.entry) priors.now) (routes_lent changed.entry.routes)) visits.old.0 }
{
    let every = ChosenRoutes {
        routes: changed.routes,
        mask: None,
    };
    bundle_contacts::drawn_on_routes(rules, new, table, every, visits)?;
    bundle_contacts::verify_priors(rules, new, priors, table, changed, visits)
}

// The chosen routes, in the order of the routes.
#[tactic(auto, using(checks::proofs::TestSteps::over_skip, checks::proofs::TestSteps::over_on, checks::proofs::TestSteps::over_off, checks::proofs::TestSteps::over_end))]
pub fn verify_one_bundle_route_node_interiors(
    board: BoardSlices,
    chosen: ChosenRoutes,
    visits: &mut GeometryVisits,
) -> Result<(), Refusal>
    requires { length chosen.routes.counts.now ≤ length board.edges.now }
    ensures { told result visits.new.0 ≡ walk 12 (over_routes (inside_route board.entry.nodes.now board.entry.edges.now) (chosen_lent chosen.entry) (routes_lent chosen.entry.routes) 0) visits.old.0 }
{
    // By index, the route's number: the mask, the slot and the edge go by it.
    for e in 0..chosen.routes.counts.len() {
        if looks::is_chosen(chosen, e) {
            let route = route_slots::slot_of(chosen.routes, e);
            route_interiors::route_inside(board.nodes, board.edges[e], route, visits)?;
        }
    }
    Ok(())
}
