// Both checks of a bundle that was drawn, its members being the changed routes.
//
// Ported from cachanova/schemweave, commit c4a1a2c60a, crates/schemweave/src/boundary_bundles.rs
// (Apache-2.0, see NOTICE). The present routes are in slots (crate route). Member k of the table of
// members has its tap at place k of taps; a bundle's members are count places from first on.

#![tactic(auto)]

ghost use Rattle.std.specs.Prelude.{◌≡◌, [], map, ℕ, ◌<◌, ◌≤◌, length, get_or};
ghost use Rattle.plan.specs.BoardTables.{no_member};
ghost use Rattle.plan.specs.MemberColumns.{edges_of};
ghost use Rattle.drawing.specs.Check.{walk, among, over_routes, contact_tests};
ghost use Rattle.checks.specs.Purse.{told};
ghost use Rattle.checks.specs.CheckRows.{inside_route, Tabled};
ghost use Rattle.route.specs.Lent.{routes_lent};
ghost use Rattle.checks.specs.Lent.{drawn_lent, RowsLent};
ghost use Rattle.checks.specs.MemberSlices.{members_from, Known, Marks, then_walk};

use board::{DrawnBundle, Member};
use checks::{BoardSlices, ChosenRoutes, MemberTaps, Rules};
use drawing::GeometryVisits;
use refusal::Refusal;
use route::PresentRoutes;

// The mask becomes true at the edges of a bundle's members, and false elsewhere: the routes that the
// bundle changes.
pub fn mark_members(members: &[Member], mask: &mut [bool])
    requires { (k : ℕ) → k < length members.now → (get_or members.now k no_member).edge < length mask.old }
    ensures { Marks members.now mask.new }
{
    mask.fill(false);
    for m in members {
        mask[m.edge] = true;
    }
}

// That the table of members has the earlier bundles' taps is asked down to verify_priors: it is a fact of
// two values. The slices and structs that are lent come from four makers, so no struct has them all.

// Both checks of a new bundle, the interiors of the nodes before the contacts.
pub fn verify_bundle(
    rules: Rules,
    board: BoardSlices,
    new: DrawnBundle,
    priors: &[DrawnBundle],
    table: MemberTaps,
    present: PresentRoutes,
    mask: &mut [bool],
    visits: &mut GeometryVisits,
) -> Result<(), Refusal>
    requires { (length present.counts.now ≤ length board.edges.now) × RowsLent table priors.now × Tabled new.first new.count (edges_of table.members.now) table.taps.now × (length present.counts.now ≤ length mask.old) × Known (edges_of table.members.now) new.first new.count (length mask.old) }
    ensures { told result visits.new.0 ≡ then_walk (walk 12 (over_routes (inside_route board.entry.nodes.now board.entry.edges.now) (among (members_from (edges_of table.entry.members.now) [] new.first new.count)) (routes_lent present.entry) 0) visits.old.0) (λ k. walk 11 (contact_tests rules.options rules.permits_crossings (drawn_lent table.entry new) (among (members_from (edges_of table.entry.members.now) [] new.first new.count)) (map (drawn_lent table.entry) priors.now) (routes_lent present.entry)) k) }
{
    mark_members(&table.members[new.first..new.first + new.count], mask);
    let changed = ChosenRoutes {
        routes: present,
        mask: Some(mask),
    };
    paid_checks::verify_one_bundle_route_node_interiors(board, changed, visits)?;
    paid_checks::verify_new_bundle_route_contacts(rules, new, priors, table, changed, visits)
}
