// Where a route meets a vertical line or the trunk of a bundle.
//
// Ported from cachanova/schemweave, commit c4a1a2c60a, crates/schemweave/src/boundary_bundles.rs
// (Apache-2.0, see NOTICE); names are those of that module where it has one.

#![tactic(auto)]

ghost use Rattle.std.specs.Prelude.{◌≡◌, Option};
ghost use Rattle.geometry.specs.Lent.{route_lent};
ghost use Rattle.geometry.specs.Points.{runs};
ghost use Rattle.geometry.specs.Stretch.{on_trunk};
ghost use Rattle.geometry.specs.declared.Point.{Point};
ghost use Rattle.geometry.specs.declared.Segment.{Segment};
ghost use Rattle.route.specs.Contract.{Within};
ghost use Rattle.route.specs.Intersection.{AnswersAs, first_met, last_met, first_vertical_line_intersection, last_vertical_line_intersection, first_shared_trunk_intersection, last_shared_trunk_intersection};

use geometry::{Point, Role, RouteView, Segment};

// ---- intersections

// first_met and last_met stay two: one goes forward over the runs and the other backward, and each
// stops at its first hit. As find_map over the places of the runs the closure has a clause of its own, that
// the run is there, and the proof did not close with it.

// The first run that is met, by its place: .enumerate().find_map(..).
#[tactic(auto, using(route::proofs::WindowSteps::first_hit, route::proofs::WindowSteps::first_miss, route::proofs::WindowSteps::first_end))]
fn first_met<F: Fn(Segment) -> Option<Point>>(route: RouteView, on_run: F) -> Option<(usize, Point)>
    requires { F.IsAlwaysCallable on_run }
    ensures met { (f : Segment → Option Point) → AnswersAs (F.post on_run) f → result ≡ first_met f 0 (runs (route_lent route.entry)) }
    ensures within { Within result route.entry.count }
{
    for i in 0..route.count.saturating_sub(1) {
        if let Some(p) = on_run(route_views::view_run(route, i)) {
            return Some((i, p));
        }
    }
    None
}

// The last run that is met, by its place: .enumerate().rev().find_map(..).
#[tactic(auto, using(route::proofs::WindowSteps::last_hit, route::proofs::WindowSteps::last_miss, route::proofs::WindowSteps::last_end))]
fn last_met<F: Fn(Segment) -> Option<Point>>(route: RouteView, on_run: F) -> Option<(usize, Point)>
    requires { F.IsAlwaysCallable on_run }
    ensures met { (f : Segment → Option Point) → AnswersAs (F.post on_run) f → result ≡ last_met f 0 (runs (route_lent route.entry)) }
    ensures within { Within result route.entry.count }
{
    for end in (1..route.count).rev() {
        if let Some(p) = on_run(route_views::view_run(route, end - 1)) {
            return Some((end - 1, p));
        }
    }
    None
}

// Where a run meets the trunk at x.
fn trunk_on_run(run: Segment, x: f64, role: Role, minimum_length: f64) -> Option<Point>
    ensures { result ≡ on_trunk role minimum_length x run.start run.end }
{
    shapes::shared_trunk_horizontal_intersection(run, x, role, minimum_length)
}

#[tactic(auto, unfolding(route::specs::Intersection::first_vertical_line_intersection))]
pub fn first_vertical_line_intersection(route: RouteView, x: f64) -> Option<(usize, Point)>
    ensures met { result ≡ first_vertical_line_intersection (route_lent route.entry) x }
    ensures within { Within result route.entry.count }
{
    first_met(route, |run| {
        shapes::segment_vertical_line_intersection(run, x, false)
    })
}

#[tactic(auto, unfolding(route::specs::Intersection::last_vertical_line_intersection))]
pub fn last_vertical_line_intersection(route: RouteView, x: f64) -> Option<(usize, Point)>
    ensures met { result ≡ last_vertical_line_intersection (route_lent route.entry) x }
    ensures within { Within result route.entry.count }
{
    last_met(route, |run| {
        shapes::segment_vertical_line_intersection(run, x, true)
    })
}

#[tactic(auto, unfolding(route::specs::Intersection::first_shared_trunk_intersection))]
pub fn first_shared_trunk_intersection(
    route: RouteView,
    x: f64,
    role: Role,
    minimum_length: f64,
) -> Option<(usize, Point)>
    ensures met { result ≡ first_shared_trunk_intersection (route_lent route.entry) x role minimum_length }
    ensures within { Within result route.entry.count }
{
    first_met(route, |run| trunk_on_run(run, x, role, minimum_length))
}

#[tactic(auto, unfolding(route::specs::Intersection::last_shared_trunk_intersection))]
pub fn last_shared_trunk_intersection(
    route: RouteView,
    x: f64,
    role: Role,
    minimum_length: f64,
) -> Option<(usize, Point)>
    ensures met { result ≡ last_shared_trunk_intersection (route_lent route.entry) x role minimum_length }
    ensures within { Within result route.entry.count }
{
    last_met(route, |run| trunk_on_run(run, x, role, minimum_length))
}
