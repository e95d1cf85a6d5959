// Points pushed onto a route: push_point.
//
// Ported from cachanova/schemweave, commit c4a1a2c60a, crates/schemweave/src/boundary_bundles.rs
// (Apache-2.0, see NOTICE); names are those of that module where it has one. What is made is written
// from the start of a lent slice, point i having its x at 2 i and its y at 2 i + 1.

#![tactic(auto)]

ghost use Rattle.std.specs.Prelude.{◌≡◌, [], ◌∷◌, ◌+◌, ◌*◌, ◌<◌, ◌≤◌, length};
ghost use Rattle.geometry.specs.Points.{points_from};
ghost use Rattle.geometry.specs.Lent.{route_lent};
ghost use Rattle.route.specs.Push.{aligned, replaces, push_point};
ghost use Rattle.route.specs.Contract.{Pushed};

use geometry::{Point, RouteView};

// ---- push_point

// The count stays beside the slice that is pushed to: it is the place of the next point, and a slice of just
// the points that count would have no room for it.

fn is_aligned(a: Point, b: Point, p: Point) -> bool
    ensures { result ≡ aligned a b p }
{
    (a.x == b.x) & (b.x == p.x) | (a.y == b.y) & (b.y == p.y)
}

// Whether the point takes the place of a route's last point.
#[tactic(auto, using(route::proofs::WindowSteps::replaces_is))]
fn replaces_last(route: RouteView, point: Point) -> bool
    ensures { result ≡ replaces (route_lent route.entry) point }
{
    if route.count == 0 {
        return false;
    }
    let last = route_views::view_last(route);
    if contact_test::preserved_point_matches(last, point) {
        return true;
    }
    if route.count < 2 {
        return false;
    }
    let before = route_views::view_point(route, route.count - 2);
    is_aligned(before, last, point)
}

// The route of the first count points with one point pushed; answers how many points it has then.
#[tactic(auto, using(route::proofs::WindowSteps::in_place, route::proofs::WindowSteps::after_it, route::proofs::WindowSteps::replaces_some, route::specs::Window::points_length))]
pub fn push_point(points: &mut [f64], count: usize, point: Point) -> usize
    requires { 2 * count + 1 < length points.old }
    ensures points { points_from points.new 0 result ≡ push_point (points_from points.old 0 count) point }
    ensures most { result ≤ count + 1 }
{
    let route = RouteView {
        points: &points[..],
        start: 0,
        count,
    };
    if replaces_last(route, point) {
        route_views::put_point(&mut points[..], count - 1, point);
        return count;
    }
    route_views::put_point(&mut points[..], count, point);
    count + 1
}

// Three points pushed one after the other.
#[tactic(auto, unfolding(route::specs::Push::push_points))]
pub fn push_three(out: &mut [f64], count: usize, a: Point, b: Point, c: Point) -> usize
    requires { 2 * (count + 3) ≤ length out.old }
    ensures { Pushed out.old count (a ∷ b ∷ c ∷ []) out.new result }
{
    let i = push_point(&mut out[..], count, a);
    let j = push_point(&mut out[..], i, b);
    push_point(&mut out[..], j, c)
}

// The points of a route, pushed one after the other.
#[tactic(auto, using(route::proofs::WindowSteps::push_step, route::proofs::WindowSteps::push_end, route::specs::Window::points_length))]
pub fn push_points(route: RouteView, out: &mut [f64], count: usize) -> usize
    requires { 2 * (count + route.count) ≤ length out.old }
    ensures { Pushed out.old count (route_lent route.entry) out.new result }
{
    let mut n = count;
    for &[x, y] in route_views::pairs(route) {
        n = push_point(&mut out[..], n, Point { x, y });
    }
    n
}
