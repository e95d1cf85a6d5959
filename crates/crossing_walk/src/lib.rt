// The strict crossings of bundles and routes on a sheet before the last shift: F-7.
//
// The walk goes by bundle, then edge, then collector before spine, then run, and keeps the place and
// the two ids of each crossing in the rows that it is lent, until there is no room for one more. Most
// runs are apart from a segment, and a few comparisons tell, as in the contact check.

#![tactic(auto)]

ghost use Rattle.std.specs.Prelude.{◌≡◌, [], ◌∷◌, ◌++◌, map, length, None};
ghost use Rattle.std.proofs.Props.{props};
ghost use Rattle.geometry.specs.Points.{runs};
ghost use Rattle.geometry.specs.Lent.{route_lent};
ghost use Rattle.geometry.specs.Kind.{kind};
ghost use Rattle.geometry.specs.Crossing.{is_strict};
ghost use Rattle.route.specs.Lent.{routes_lent};
ghost use Rattle.crossing_rows.specs.Rows.{one_row, run_rows, bundle_rows, sheet_rows, id_of, rows_met};
ghost use Rattle.crossing_rows.specs.Lent.{Adds};

use board::{DrawnBundle, Edge};
use contact_test::Bus;
use crossing_rows::{Row, Rows};
use geometry::{RouteView, Segment};
use refusal::Refusal;
use route::PresentRoutes;

// The ids that a row of the walk gets.
#[derive(Clone, Copy)]
struct Ids {
    bundle: u64,
    edge: u64,
}

// The present routes in their slots, and the edge of each.
#[derive(Clone, Copy)]
struct NamedRoutes<'a> {
    present: PresentRoutes<'a>,
    edges: &'a [Edge],
    ghost named: { length edges.now ≡ length present.counts.now } by { Prim.hlevel props },
}

// ---- the walk

// One row more, where there is room.
fn keep(kept: &mut Rows, row: Row) -> Result<(), Refusal>
    ensures { Adds kept.old.items kept.new.items (row ∷ []) result }
{
    if kept.is_full() {
        return Err(Refusal::TooManyCrossings);
    }
    kept.push(row);
    Ok(())
}

// Whether a bus and a run cross strictly.
#[tactic(auto, using(crossing_rows::specs::Walk::apart_crosses))]
fn is_crossing(bus: Bus, run: Segment) -> bool
    ensures { result ≡ is_strict (kind bus.segment run.start run.end None) }
{
    if contact_test::is_apart(bus.line, 0.0, run) {
        return false;
    }
    let k = contact_test::contact_kind(bus.segment, run, None);
    contact_test::is_strict_crossing(k)
}

fn walk_run(bus: Bus, ids: Ids, run: Segment, kept: &mut Rows) -> Result<(), Refusal>
    ensures { Adds kept.old.items kept.new.items (one_row bus.segment ids.bundle ids.edge run) result }
{
    if is_crossing(bus, run) {
        let place = contact_test::crossing_point(bus.segment, run);
        return keep(
            kept,
            Row {
                place,
                bundle: ids.bundle,
                edge: ids.edge,
            },
        );
    }
    Ok(())
}

// The runs of a route.
fn walk_runs(bus: Bus, ids: Ids, route: RouteView, kept: &mut Rows) -> Result<(), Refusal>
    ensures { Adds kept.old.items kept.new.items (run_rows bus.segment ids.bundle ids.edge (runs (route_lent route.entry))) result }
{
    for i in 0..route.count.saturating_sub(1) {
        walk_run(bus, ids, route_views::view_run(route, i), kept)?;
    }
    Ok(())
}

// A route against the collector, then against the spine.
fn walk_route(
    collector: Bus,
    spine: Bus,
    ids: Ids,
    route: RouteView,
    kept: &mut Rows,
) -> Result<(), Refusal>
    ensures { Adds kept.old.items kept.new.items (run_rows collector.segment ids.bundle ids.edge (runs (route_lent route.entry)) ++ run_rows spine.segment ids.bundle ids.edge (runs (route_lent route.entry))) result }
{
    walk_runs(collector, ids, route, kept)?;
    walk_runs(spine, ids, route, kept)
}

// Every route against a bundle, whose segments' trunks are worked out once for all.
fn walk_bundle(row: DrawnBundle, routes: NamedRoutes, kept: &mut Rows) -> Result<(), Refusal>
    ensures { Adds kept.old.items kept.new.items (bundle_rows row (map id_of routes.entry.edges.now) (routes_lent routes.entry.present) 0) result }
{
    let collector = contact_test::bus_of(row.collector);
    let spine = contact_test::bus_of(row.spine);
    for (e, edge) in routes.edges.iter().enumerate() {
        let ids = Ids {
            bundle: row.id,
            edge: edge.id,
        };
        walk_route(
            collector,
            spine,
            ids,
            route_slots::slot_of(routes.present, e),
            kept,
        )?;
    }
    Ok(())
}

// Every bundle in job order.
fn walk_bundles(drawn: &[DrawnBundle], routes: NamedRoutes, kept: &mut Rows) -> Result<(), Refusal>
    ensures { Adds kept.old.items kept.new.items (sheet_rows drawn.now (map id_of routes.entry.edges.now) (routes_lent routes.entry.present)) result }
{
    for row in drawn {
        walk_bundle(*row, routes, kept)?;
    }
    Ok(())
}

// Every bundle in job order, where crossings are permitted; where they are not there are none, and
// none is looked for. What was kept before goes. More than 1,024 are refused (19). permitted is bit 1 of
// the job's flags, as the definition takes it.
pub fn sheet_crossings(
    permitted: bool,
    table: &[Edge],
    drawn: &[DrawnBundle],
    present: PresentRoutes,
    kept: &mut Rows,
) -> Result<(), Refusal>
    requires each { length present.counts.now ≡ length table.now }
    ensures { Adds [] kept.new.items (rows_met permitted table.now drawn.now present.entry.points.now present.entry.counts.now) result }
{
    kept.clear();
    if !permitted {
        return Ok(());
    }
    let routes = NamedRoutes {
        present,
        edges: table,
    };
    walk_bundles(drawn, routes, kept)
}
