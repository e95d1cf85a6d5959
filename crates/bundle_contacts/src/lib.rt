// The contacts of a new bundle: with runs, routes and earlier bundles.
//
// Ported from cachanova/schemweave, commit c4a1a2c60a, crates/schemweave/src/boundary_bundles.rs
// (Apache-2.0, see NOTICE). What the slices hold, and how the geometry visits are lent, is said in
// crate checks.

#![tactic(auto)]

ghost use Rattle.std.specs.Prelude.{◌≡◌, [], ◌∷◌, ◌++◌, map, None};
ghost use Rattle.geometry.specs.Lent.{route_lent};
ghost use Rattle.geometry.specs.Points.{runs};
ghost use Rattle.plan.specs.MemberColumns.{edges_of};
ghost use Rattle.drawing.specs.Build.{tap_of};
ghost use Rattle.drawing.specs.Check.{due, walk, clash, run_tests, over_routes, route_tests, drawn_tests, pair_tests, prior_tests};
ghost use Rattle.checks.specs.Purse.{told};
ghost use Rattle.checks.specs.CheckRows.{drawn_of, Tabled};
ghost use Rattle.route.specs.Lent.{routes_lent};
ghost use Rattle.checks.specs.Lent.{chosen_lent, drawn_lent, RowsLent, taps_lent};

use board::DrawnBundle;
use checks::{ChosenRoutes, MemberTaps, Rules};
use contact_test::Bus;
use drawing::GeometryVisits;
use geometry::{RouteView, Segment};
use refusal::Refusal;

// A segment of a bundle, and the bundle's members with their taps.
#[derive(Clone, Copy)]
struct TappedBus<'a> {
    bus: Bus,
    taps: MemberTaps<'a>,
}

// ---- verify_new_bundle_route_contacts

// A bundle's segment against one of another bundle, which has no tap on it.
fn bus_on_segment(
    rules: Rules,
    bus: Segment,
    run: Segment,
    visits: &mut GeometryVisits,
) -> Result<(), Refusal>
    ensures { told result visits.new.0 ≡ walk 11 (due (clash rules.options rules.permits_crossings bus None run) ∷ []) visits.old.0 }
{
    looks::charge(visits)?;
    if looks::clashes(rules, bus, None, run) {
        return Err(Refusal::ForbiddenContact);
    }
    Ok(())
}

// A bundle's segment against a run of route e. Most runs are apart from it, so the tap is looked up
// only for those that are not.
fn bus_on_route_run(
    rules: Rules,
    own: TappedBus,
    e: usize,
    run: Segment,
    visits: &mut GeometryVisits,
) -> Result<(), Refusal>
    ensures { told result visits.new.0 ≡ walk 11 (due (clash rules.options rules.permits_crossings own.entry.bus.segment (tap_of (taps_lent own.entry.taps) e) run) ∷ []) visits.old.0 }
{
    looks::charge(visits)?;
    let spacing = rules.options.minimum_parallel_wire_spacing;
    if contact_test::is_apart(own.bus.line, spacing, run) {
        return Ok(());
    }
    if looks::clashes(
        rules,
        own.bus.segment,
        looks::tap_on_route(own.taps, e),
        run,
    ) {
        return Err(Refusal::ForbiddenContact);
    }
    Ok(())
}

// A bundle's segment against route e.
fn bus_on_route(
    rules: Rules,
    own: TappedBus,
    e: usize,
    route: RouteView,
    visits: &mut GeometryVisits,
) -> Result<(), Refusal>
    ensures { told result visits.new.0 ≡ walk 11 (run_tests rules.options rules.permits_crossings own.entry.bus.segment (tap_of (taps_lent own.entry.taps) e) (runs (route_lent route.entry))) visits.old.0 }
{
    for i in 0..route.count.saturating_sub(1) {
        let run = route_views::view_run(route, i);
        bus_on_route_run(rules, own, e, run, visits)?;
    }
    Ok(())
}

// A bundle's segment against the chosen routes.
fn bus_on_routes(
    rules: Rules,
    segment: Segment,
    taps: MemberTaps,
    chosen: ChosenRoutes,
    visits: &mut GeometryVisits,
) -> Result<(), Refusal>
    ensures { told result visits.new.0 ≡ walk 11 (over_routes (route_tests rules.options rules.permits_crossings segment (taps_lent taps.entry)) (chosen_lent chosen.entry) (routes_lent chosen.entry.routes) 0) visits.old.0 }
{
    let own = TappedBus {
        bus: contact_test::bus_of(segment),
        taps,
    };
    // By index, the route's number: the mask, the slot and the tap go by it. A loop of its own beside that of
    // paid_checks: other steps, another law.
    for e in 0..chosen.routes.counts.len() {
        if looks::is_chosen(chosen, e) {
            bus_on_route(
                rules,
                own,
                e,
                route_slots::slot_of(chosen.routes, e),
                visits,
            )?;
        }
    }
    Ok(())
}

// The rules, the table and the visits are no struct here and above: with the visits lent in it, it could
// not be copied, and each call would make it anew.

// A bundle's collector, then its spine, against the chosen routes.
pub fn drawn_on_routes(
    rules: Rules,
    d: DrawnBundle,
    table: MemberTaps,
    chosen: ChosenRoutes,
    visits: &mut GeometryVisits,
) -> Result<(), Refusal>
    requires { Tabled d.first d.count (edges_of table.members.now) table.taps.now }
    ensures { told result visits.new.0 ≡ walk 11 (drawn_tests rules.options rules.permits_crossings (drawn_lent table.entry d) (chosen_lent chosen.entry) (routes_lent chosen.entry.routes)) visits.old.0 }
{
    let own = MemberTaps {
        members: &table.members[d.first..d.first + d.count],
        taps: &table.taps[d.first..d.first + d.count],
    };
    bus_on_routes(rules, d.collector, own, chosen, visits)?;
    bus_on_routes(rules, d.spine, own, chosen, visits)
}

// A segment of the new bundle against the two of an earlier one.
fn bus_on_drawn(
    rules: Rules,
    a: Segment,
    prior: DrawnBundle,
    visits: &mut GeometryVisits,
) -> Result<(), Refusal>
    ensures { told result visits.new.0 ≡ walk 11 (due (clash rules.options rules.permits_crossings a None prior.collector) ∷ due (clash rules.options rules.permits_crossings a None prior.spine) ∷ []) visits.old.0 }
{
    bus_on_segment(rules, a, prior.collector, visits)?;
    bus_on_segment(rules, a, prior.spine, visits)
}

fn drawn_on_drawn(
    rules: Rules,
    new: DrawnBundle,
    prior: DrawnBundle,
    visits: &mut GeometryVisits,
) -> Result<(), Refusal>
    ensures { told result visits.new.0 ≡ walk 11 (pair_tests rules.options rules.permits_crossings (drawn_of [] [] new) (drawn_of [] [] prior)) visits.old.0 }
{
    bus_on_drawn(rules, new.collector, prior, visits)?;
    bus_on_drawn(rules, new.spine, prior, visits)
}

// An earlier bundle against the changed routes, then against the new bundle.
#[tactic(auto, using(checks::proofs::TestSteps::then_on, checks::proofs::TestSteps::then_off), unfolding(drawing::specs::Check::pair_tests))]
fn verify_prior(
    rules: Rules,
    new: DrawnBundle,
    prior: DrawnBundle,
    table: MemberTaps,
    changed: ChosenRoutes,
    visits: &mut GeometryVisits,
) -> Result<(), Refusal>
    requires { Tabled prior.first prior.count (edges_of table.members.now) table.taps.now }
    ensures { told result visits.new.0 ≡ walk 11 (drawn_tests rules.options rules.permits_crossings (drawn_lent table.entry prior) (chosen_lent changed.entry) (routes_lent changed.entry.routes) ++ pair_tests rules.options rules.permits_crossings (drawn_lent table.entry new) (drawn_lent table.entry prior)) visits.old.0 }
{
    drawn_on_routes(rules, prior, table, changed, visits)?;
    drawn_on_drawn(rules, new, prior, visits)
}

// Each earlier bundle in turn.
#[tactic(auto, using(checks::proofs::TestSteps::tabled_at, checks::proofs::TestSteps::prior_on, checks::proofs::TestSteps::prior_off, checks::proofs::TestSteps::prior_end))]
pub fn verify_priors(
    rules: Rules,
    new: DrawnBundle,
    priors: &[DrawnBundle],
    table: MemberTaps,
    changed: ChosenRoutes,
    visits: &mut GeometryVisits,
) -> Result<(), Refusal>
    requires { RowsLent table priors.now }
    ensures { told result visits.new.0 ≡ walk 11 (prior_tests rules.options rules.permits_crossings (drawn_lent table.entry new) (chosen_lent changed.entry) (map (drawn_lent table.entry) priors.now) (routes_lent changed.entry.routes)) visits.old.0 }
{
    for &prior in priors {
        verify_prior(rules, new, prior, table, changed, visits)?;
    }
    Ok(())
}
