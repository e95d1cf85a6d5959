// Which calls of the search get a number of document 01: places, counts, roles and numbers.

#![tactic(auto)]

ghost use Rattle.std.specs.Prelude.{◌≡◌, ◌&&◌, MatchResult};
ghost use Rattle.limits.specs.Limits.{max_points};
ghost use Rattle.refusal.specs.Refusal.{refusal_number};
ghost use Rattle.binary64.specs.Accepted.{is_coordinate};
ghost use Rattle.geometry.specs.Lent.{route_lent};
ghost use Rattle.search.specs.Lent.{routes_lent};
ghost use Rattle.search_calls.specs.Entry.{counts_fit, points_fit, routes_fit, bounds_fit, role_of};
ghost use Rattle.search_calls.specs.Lent.{lent_places_fit, call_refusal};

use geometry::{Point, Role, RouteView};
use limits::{MAX_BUNDLE_MEMBERS, MAX_POINTS, MAX_ROUTE_POINTS, MAX_TAP_VISITS};
use refusal::Refusal;
use search::{Bounds, MemberRoutes};
use search_calls::{Call, LentRoutes};

// ---- what the public entries refuse

// Every member's points are within the points lent.
#[tactic(auto, using(search_calls::proofs::RefusalSteps::places_differ))]
pub fn places_fit<'a>(lent: LentRoutes<'a>) -> bool
    ensures { result ≡ lent_places_fit lent.entry }
{
    let mut places = lent.starts.iter().zip(lent.counts);
    lent.starts.len() == lent.counts.len()
        && places.all(|(&start, &n)| route_views::view_within(lent.points, start, n).is_some())
}

// No route has too many points, and all together have not.
#[tactic(auto, using(search_calls::proofs::RefusalSteps::counts_next, search_calls::proofs::RefusalSteps::counts_end))]
pub fn counts_fit(counts: &[usize]) -> bool
    ensures { result ≡ counts_fit max_points counts.now }
{
    let mut left = MAX_POINTS;
    for &count in counts {
        if count > MAX_ROUTE_POINTS || count > left {
            return false;
        }
        left -= count;
    }
    true
}

pub fn is_point(p: Point) -> bool
    ensures { result ≡ is_coordinate p.x && is_coordinate p.y }
{
    binary64::is_coordinate(p.x) & binary64::is_coordinate(p.y)
}

pub fn points_fit<'a>(route: RouteView<'a>) -> bool
    ensures { result ≡ points_fit (route_lent route.entry) }
{
    route_views::pairs(route)
        .iter()
        .all(|&[x, y]| is_point(Point { x, y }))
}

pub fn routes_fit<'a>(routes: MemberRoutes<'a>) -> bool
    ensures { result ≡ routes_fit (routes_lent routes.entry) }
{
    (0..routes.starts.len()).all(|m| points_fit(search_runs::member_route(routes, m)))
}

pub fn is_bounds(b: Bounds) -> bool
    ensures { result ≡ bounds_fit b }
{
    binary64::is_coordinate(b.minimum)
        & binary64::is_coordinate(b.desired)
        & binary64::is_coordinate(b.maximum)
}

// The routes and the role of a call that is accepted, or its refusal, in the order of document 01's
// numbers. `room` says that every lent output and scratch is long enough, `bounds` that the bounds are
// accepted.
#[tactic(auto, using(search_calls::proofs::RefusalSteps::windows))]
pub fn accepted<'a>(
    room: bool,
    call: Call<'a>,
    bounds: bool,
) -> Result<(MemberRoutes<'a>, Role), Refusal>
    ensures { MatchResult result
        (λ a. (call_refusal room call.entry bounds ≡ 0) × (a.0.points ≡ call.entry.routes.points) × (a.0.starts ≡ call.entry.routes.starts) × (a.0.counts ≡ call.entry.routes.counts) × (a.1 ≡ role_of call.entry.role))
        (λ r. call_refusal room call.entry bounds ≡ refusal_number r) }
{
    let lent = call.routes;
    if !room {
        return Err(Refusal::BufferTooShort);
    }
    if !places_fit(lent) {
        return Err(Refusal::FieldsMismatch);
    }
    if lent.starts.len() > MAX_BUNDLE_MEMBERS
        || !counts_fit(lent.counts)
        || call.granted > MAX_TAP_VISITS
    {
        return Err(Refusal::LimitExceeded);
    }
    let Ok(role) = Role::try_from(call.role) else {
        return Err(Refusal::ValueNotListed);
    };
    let routes = MemberRoutes {
        points: lent.points,
        starts: lent.starts,
        counts: lent.counts,
    };
    if !routes_fit(routes) || !binary64::is_option(call.pitch) || !bounds {
        return Err(Refusal::NumberOutOfRange);
    }
    Ok((routes, role))
}
