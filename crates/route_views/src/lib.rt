// Points of a slice, and a route as a view over them.
//
// Ported from cachanova/schemweave, commit c4a1a2c60a, crates/schemweave/src/boundary_bundles.rs
// (Apache-2.0, see NOTICE); names are those of that module where it has one. Coordinates are read and
// put as they are: none is compared or rounded here.

#![tactic(auto)]

ghost use Rattle.std.specs.Prelude.{◌≡◌, ℕ, ◌+◌, ◌*◌, ◌-◌, ◌<◌, ◌≤◌, [], IfSome, is_some, leb, length, get_or};
ghost use Rattle.geometry.specs.Points.{point_at, run_at, put_point};

use geometry::{Point, RouteView, Segment};

// ---- points of a slice

// Point i of a lent slice of coordinates: x at 2 i, y at 2 i + 1.
#[tactic(auto, unfolding(geometry::specs::Points::point_at))]
pub fn point_at(points: &[f64], i: usize) -> Point
    requires { 2 * i + 1 < length points.now }
    ensures { result ≡ point_at points.now i }
{
    Point {
        x: points[2 * i],
        y: points[2 * i + 1],
    }
}

#[tactic(auto, unfolding(geometry::specs::Points::put_point))]
pub fn put_point(out: &mut [f64], i: usize, p: Point)
    requires { 2 * i + 1 < length out.old }
    ensures { out.new ≡ put_point out.old i p }
{
    out[2 * i] = p.x;
    out[2 * i + 1] = p.y;
}

// ---- a route as a view over points

// The route of count points from point start on, where they are there. Numbers that would wrap are no
// route.
pub fn view_within<'a>(points: &'a [f64], start: usize, count: usize) -> Option<RouteView<'a>>
    ensures there { is_some result ≡ leb (2 * (start + count)) (length points.now) }
    ensures same { IfSome result (λ r. (r.points ≡ points.entry) × (r.start ≡ start) × (r.count ≡ count)) }
{
    let n = points.len() / 2;
    if start > n || count > n - start {
        return None;
    }
    Some(RouteView {
        points,
        start,
        count,
    })
}

// Point i of the route.
pub fn view_point<'a>(v: RouteView<'a>, i: usize) -> Point
    requires { i < v.count }
    ensures { result ≡ point_at v.entry.points.now (v.entry.start + i) }
{
    point_at(v.points, v.start + i)
}

// The points of the route, each as its x and its y.
pub fn pairs<'a>(v: RouteView<'a>) -> &'a [[f64; 2]]
    ensures count { length result.now ≡ v.entry.count }
    ensures points { (i : ℕ) → i < v.entry.count → point_at (get_or result.now i []) 0 ≡ point_at v.entry.points.now (v.entry.start + i) }
{
    let numbers = &v.points[2 * v.start..2 * (v.start + v.count)];
    numbers.as_chunks::<2>().0
}

// Run i of the route: from its point i to the next. That the run is there is asked: a place is a number, and
// a type for it would be made and taken apart at each step.
pub fn view_run<'a>(v: RouteView<'a>, i: usize) -> Segment
    requires { i + 1 < v.count }
    ensures { result ≡ run_at v.entry.points.now (v.entry.start + i) }
{
    Segment {
        start: view_point(v, i),
        end: view_point(v, i + 1),
    }
}

// The last point of the route, which has one.
pub fn view_last<'a>(v: RouteView<'a>) -> Point
    requires { 0 < v.count }
    ensures { result ≡ point_at v.entry.points.now (v.entry.start + (v.entry.count - 1)) }
{
    view_point(v, v.count - 1)
}
