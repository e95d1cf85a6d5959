// One run, one candidate, one lane: what the search looks at.
//
// Ported from cachanova/schemweave, commit c4a1a2c60a, crates/schemweave/src/boundary_bundles.rs
// (Apache-2.0, see NOTICE): common_horizontal_collector_xs, common_horizontal_collector_x and
// promotion_collector_candidates. The members' routes are windows of points in one lent slice of
// coordinates, the route of member m being counts[m] points from point starts[m] on.

#![tactic(auto)]

ghost use Rattle.std.specs.Prelude.{◌≡◌, ◌+◌, ◌*◌, ◌<◌, get_or, length};
ghost use Rattle.geometry.specs.Stretch.{stretch, holds};
ghost use Rattle.geometry.specs.Points.{point_at};
ghost use Rattle.search.specs.Promotion.{adjacent, between};
ghost use Rattle.search.specs.Search.{candidate, falls};
ghost use Rattle.search.specs.Kept.{kept, spanned};

use geometry::{Point, Role, RouteView};
use search::{Bounds, MemberRoutes};

// The route of member m.
pub fn member_route<'a>(routes: MemberRoutes<'a>, m: usize) -> RouteView<'a>
    requires { m < length routes.starts.now }
    ensures { (result.points ≡ routes.entry.points) × (result.start ≡ get_or routes.entry.starts.now m 0) × (result.count ≡ get_or routes.entry.counts.now m 0) }
{
    RouteView {
        points: routes.points,
        start: routes.starts[m],
        count: routes.counts[m],
    }
}

// The stretch of run i of a route.
pub fn run_stretch<'a>(route: RouteView<'a>, i: usize, role: Role, pitch: f64) -> Option<(f64, f64)>
    requires { i + 1 < route.count }
    ensures { result ≡ stretch role pitch (point_at route.entry.points.now (route.entry.start + i)) (point_at route.entry.points.now (route.entry.start + i + 1)) }
{
    let run = route_views::view_run(route, i);
    shapes::shared_trunk_horizontal_range(run, role, pitch)
}

// What is kept of a run: the ends of its stretch, or, where it has none, a low end above its high end.
pub fn kept_of(s: Option<(f64, f64)>) -> Point
    ensures { result ≡ kept s }
{
    s.map_or(
        Point { x: 1.0, y: 0.0 },
        |(low, high)| Point { x: low, y: high },
    )
}

// Whether x lies between the ends of kept pair i: two loads and two comparisons, without a branch
// for each, since most visits of a search end here and it would be mispredicted often.
#[tactic(auto, unfolding(geometry::specs::Points::point_at))]
pub fn kept_holds(pairs: &[f64], i: usize, x: f64) -> bool
    requires { 2 * i + 1 < length pairs.now }
    ensures { result ≡ holds x (spanned (point_at pairs.now i)) }
{
    (x >= pairs[2 * i]) & (x <= pairs[2 * i + 1])
}

pub fn candidate_of(role: Role, b: Bounds, s: Option<(f64, f64)>) -> Option<f64>
    ensures { result ≡ candidate role b s }
{
    let (segment_low, segment_high) = s?;
    let low = binary64::max(segment_low, b.minimum);
    let high = binary64::min(segment_high, b.maximum);
    if low > high {
        return None;
    }
    match role {
        Role::Input => Some(binary64::min(high, b.desired)),
        Role::Output => Some(binary64::max(low, b.desired)),
    }
}

// Input bundles try their candidates from the right, Output bundles from the left.
pub fn is_falling(role: Role) -> bool
    ensures { result ≡ falls role }
{
    match role {
        Role::Input => true,
        Role::Output => false,
    }
}

// ---- promotion_collector_candidates

// One pitch beside the desired x. No call of plan_numbers::inward, which would be with the role turned round
// and would hide that an Input bundle goes left here.
pub fn adjacent_lane(role: Role, pitch: f64, desired: f64) -> f64
    ensures { result ≡ adjacent role pitch desired }
{
    match role {
        Role::Input => desired - pitch,
        Role::Output => desired + pitch,
    }
}

pub fn is_between(b: Bounds, x: f64) -> bool
    ensures { result ≡ between b x }
{
    (x >= b.minimum) & (x <= b.maximum)
}
