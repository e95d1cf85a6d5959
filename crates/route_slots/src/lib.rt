// A route in its slot, read and put there.
//
// Ported from cachanova/schemweave, commit c4a1a2c60a, crates/schemweave/src/boundary_bundles.rs
// (Apache-2.0, see NOTICE); names are those of that module where it has one.

#![tactic(auto)]

ghost use Rattle.std.specs.Prelude.{◌≡◌, ◌+◌, ◌*◌, ◌<◌, ◌≤◌, length, get_or};
ghost use Rattle.geometry.specs.Points.{points_from};
ghost use Rattle.geometry.specs.Lent.{route_lent};
ghost use Rattle.limits.specs.Limits.{slot_points, slot_numbers};
ghost use Rattle.route.specs.Slots.{put_points, Stored};

use geometry::RouteView;
use limits::SLOT_POINTS;
use route::PresentRoutes;

// ---- present routes in slots: the route of edge e is in the 68 points from point 68 e on, and
// counts has how many points it has

// Route e in its slot.
pub fn slot_of(present: PresentRoutes, e: usize) -> RouteView
    requires { e < length present.counts.now }
    ensures { route_lent result ≡ points_from present.entry.points.now (slot_points * e) (get_or present.entry.counts.now e 0) }
{
    RouteView {
        points: present.points,
        start: SLOT_POINTS * e,
        count: present.counts[e],
    }
}

// slots and counts that are written stay two parameters: of a struct of two `&mut` each contract would have to say that
// its references stay the same.

// The points of a route, written into another slice from point at on.
#[tactic(auto, using(route::proofs::PointCopies::points_copied))]
fn copy_points(route: RouteView, out: &mut [f64], at: usize)
    requires { 2 * (at + route.count) ≤ length out.old }
    ensures { out.new ≡ put_points out.old at (route_lent route.entry) }
{
    let n = 2 * route.count;
    let from = 2 * route.start;
    slices::copy(&mut out[2 * at..2 * at + n], &route.points[from..from + n]);
}

// The route of edge e becomes another one: a rewritten route of the scratch, or a given one of the
// job's points.
pub fn store_route(route: RouteView, slots: &mut [f64], counts: &mut [usize], e: usize)
    requires { (route.count ≤ slot_points) × (slot_numbers * length counts.old ≤ length slots.old) × (e < length counts.old) }
    ensures { Stored slots.old counts.old e (route_lent route.entry) slots.new counts.new }
{
    copy_points(route, &mut slots[..], SLOT_POINTS * e);
    counts[e] = route.count;
}
