// The four rewritings of a route.
//
// Ported from cachanova/schemweave, commit c4a1a2c60a, crates/schemweave/src/boundary_bundles.rs
// (Apache-2.0, see NOTICE); names are those of that module where it has one. What is made is written
// from the start of a lent slice, point i having its x at 2 i and its y at 2 i + 1.

#![tactic(auto)]

ghost use Rattle.std.specs.Prelude.{◌≡◌, suc, ◌+◌, ◌*◌, ◌-◌, ◌<◌, ◌≤◌, length, take, drop};
ghost use Rattle.geometry.specs.Lent.{route_lent};
ghost use Rattle.route.specs.Rewrite.{rewrite_input_shared_trunk, rewrite_output_shared_trunk, rewrite_input_route, rewrite_output_route};
ghost use Rattle.route.specs.Contract.{Leaves};

use geometry::{Point, Role, RouteView};

// ---- the parts of a route that is met on its run i

// Its points after the run's start.
fn after_run(route: RouteView, i: usize) -> RouteView
    requires { i + 1 < route.count }
    ensures points { route_lent result ≡ drop (suc i) (route_lent route.entry) }
    ensures count { result.count ≡ route.entry.count - (i + 1) }
{
    RouteView {
        points: route.points,
        start: route.start + i + 1,
        count: route.count - (i + 1),
    }
}

// Its points up to the run's start.
fn up_to_run(route: RouteView, i: usize) -> RouteView
    requires { i + 1 < route.count }
    ensures points { route_lent result ≡ take (suc i) (route_lent route.entry) }
    ensures count { result.count ≡ i + 1 }
{
    RouteView {
        points: route.points,
        start: route.start,
        count: i + 1,
    }
}

// ---- the four rewritings
//
// An input's points after the run follow the new ones, an output's points up to the run's start come
// before them. The four are the Rust's functions: their heads are alike, and their steps differ.

// Each asks for room for two points more than the route has: a fact of the route and the slice together,
// which no field of either can keep.

pub fn rewrite_input_shared_trunk(
    route: RouteView,
    tap: Point,
    minimum_length: f64,
    out: &mut [f64],
) -> Option<usize>
    requires { 2 * (route.count + 2) ≤ length out.old }
    ensures { Leaves result out.old out.new route.entry.count (rewrite_input_shared_trunk (route_lent route.entry) tap minimum_length) }
{
    let (i, p) = route_crossings::first_shared_trunk_intersection(
        route,
        tap.x,
        Role::Input,
        minimum_length,
    )?;
    if !contact_test::preserved_point_matches(p, tap) {
        return None;
    }
    let n = route_pushing::push_point(&mut out[..], 0, tap);
    let rest = after_run(route, i);
    Some(route_pushing::push_points(rest, &mut out[..], n))
}

pub fn rewrite_output_shared_trunk(
    route: RouteView,
    tap: Point,
    minimum_length: f64,
    out: &mut [f64],
) -> Option<usize>
    requires { 2 * (route.count + 2) ≤ length out.old }
    ensures { Leaves result out.old out.new route.entry.count (rewrite_output_shared_trunk (route_lent route.entry) tap minimum_length) }
{
    let (i, met) = route_crossings::last_shared_trunk_intersection(
        route,
        tap.x,
        Role::Output,
        minimum_length,
    )?;
    if !contact_test::preserved_point_matches(met, tap) {
        return None;
    }
    let kept = up_to_run(route, i);
    let n = route_pushing::push_points(kept, &mut out[..], 0);
    Some(route_pushing::push_point(&mut out[..], n, tap))
}

pub fn rewrite_input_route(
    route: RouteView,
    tap: Point,
    pitch: f64,
    out: &mut [f64],
) -> Option<usize>
    requires { 2 * (route.count + 2) ≤ length out.old }
    ensures { Leaves result out.old out.new route.entry.count (rewrite_input_route (route_lent route.entry) tap pitch) }
{
    let x = tap.x + pitch;
    let (i, p) = route_crossings::first_vertical_line_intersection(route, x)?;
    let corner = Point { x, y: tap.y };
    let n = route_pushing::push_three(&mut out[..], 0, tap, corner, p);
    let after = after_run(route, i);
    Some(route_pushing::push_points(after, &mut out[..], n))
}

pub fn rewrite_output_route(
    route: RouteView,
    tap: Point,
    pitch: f64,
    out: &mut [f64],
) -> Option<usize>
    requires { 2 * (route.count + 2) ≤ length out.old }
    ensures { Leaves result out.old out.new route.entry.count (rewrite_output_route (route_lent route.entry) tap pitch) }
{
    let x = tap.x - pitch;
    let (i, p) = route_crossings::last_vertical_line_intersection(route, x)?;
    let corner = Point { x, y: tap.y };
    let kept = up_to_run(route, i);
    let n = route_pushing::push_points(kept, &mut out[..], 0);
    Some(route_pushing::push_three(&mut out[..], n, p, corner, tap))
}
