// The bounds of a bundle's collector.
//
// Ported from cachanova/schemweave, commit c4a1a2c60a, crates/schemweave/src/boundary_bundles.rs
// (Apache-2.0, see NOTICE).

#![tactic(auto)]

ghost use Rattle.std.specs.Prelude.{◌≡◌, List, ℕ, ◌+◌, ◌≤◌, length, Float};
ghost use Rattle.limits.specs.Limits.{max_edges};
ghost use Rattle.board.specs.Board.{Board};
ghost use Rattle.geometry.specs.Points.{Route};
ghost use Rattle.geometry.specs.Lent.{route_lent};
ghost use Rattle.plan.specs.declared.Bound.TheVariants.{None};
ghost use Rattle.plan.specs.Depths.{members_in};
ghost use Rattle.plan.specs.Bounds.{reach_all, bounds_of, tighter, reach_x, map_bound, unless_crossed, span_of};
ghost use Rattle.plan.specs.MemberColumns.{edges_of};
ghost use Rattle.plan.specs.Prepared.{other, end_x, Below, Rowed, Tells};
ghost use Rattle.plan.specs.Lent.{RoutesTell, CorridorsTell};

use board::{Bundle, Member};
use geometry::{Role, RouteView};
use plan::corridors::Corridors;
use plan::{Between, Bound, Reached};
use search::{Bounds, MemberRoutes};

// ---- interior_collector_bounds

// How far a member lets the collector go, from the end of its route.
fn reach_x(role: Role, reserve: f64, corridor: Bound, x: f64) -> f64
    ensures { result ≡ reach_x role reserve corridor x }
{
    match role {
        Role::Input => plan_numbers::lower(x - reserve, corridor),
        Role::Output => plan_numbers::raise(x + reserve, corridor),
    }
}

// The same, if its route has an end.
fn member_reach(role: Role, reserve: f64, corridor: Bound, end: Bound) -> Bound
    ensures { result ≡ map_bound (reach_x role reserve corridor) end }
{
    match end {
        Bound::None => Bound::None,
        Bound::At(x) => Bound::At(reach_x(role, reserve, corridor, x)),
    }
}

// The nearer to the port of what was reached and x.
fn tighten(role: Role, d: Bound, x: f64) -> f64
    ensures { result ≡ tighter role d x }
{
    match d {
        Bound::None => x,
        Bound::At(y) => plan_numbers::outer(role, y, x),
    }
}

// The end of a route that the collector is kept away from.
fn end_x(role: Role, route: RouteView) -> Bound
    ensures { result ≡ end_x role (route_lent route.entry) }
{
    if route.count == 0 {
        return Bound::None;
    }
    match role {
        Role::Input => Bound::At(route_views::view_last(route).x),
        Role::Output => Bound::At(route_views::view_point(route, 0).x),
    }
}

fn other(role: Role) -> Role
    ensures { result ≡ other role }
{
    match role {
        Role::Input => Role::Output,
        Role::Output => Role::Input,
    }
}

// That the routes have the bundle's members is asked here and in plan_outputs: the routes are those of
// every bundle, so neither struct can keep it.

// How far all members of a bundle let the collector go.
pub fn reach_all(
    role: Role,
    reserve: f64,
    routes: MemberRoutes,
    members: &[Member],
    corridors: Corridors,
    u: Bundle,
) -> Bound
    requires below { Below max_edges (edges_of members.now) u }
    requires inside { u.first + u.count ≤ length members.now }
    requires routed { u.first + u.count ≤ length routes.starts.now }
    ensures { (b : Board) (given : List Route) (lanes : List ℕ) → reserve ≡ b.options.member_endpoint_reserve → Rowed b (edges_of members.now) lanes → u.first + u.count ≤ length b.members → RoutesTell b given routes.entry → CorridorsTell b corridors.entry → result ≡ reach_all b given role None (members_in b u) }
{
    let across = other(role);
    let mut d = Bound::None;
    // By index: a member's row and its route are taken by one number, and the search has the windows in two columns.
    for i in 0..u.count {
        let k = u.first + i;
        let corridor = plan_corridors::corridor_of(across, corridors, members[k].edge);
        let route = search_runs::member_route(routes, k);
        let end = end_x(role, route);
        let Bound::At(x) = member_reach(role, reserve, corridor, end) else {
            return Bound::None;
        };
        d = Bound::At(tighten(role, d, x));
    }
    d
}

fn unless_crossed(low: f64, desired: f64, high: f64) -> Option<Bounds>
    ensures { result ≡ unless_crossed low desired high }
{
    if low > high {
        return None;
    }
    Some(Bounds {
        minimum: low,
        desired: plan_numbers::clamp(desired, low, high),
        maximum: high,
    })
}

// From the port's side to the members' side.
fn span_of(r: Reached, rail: f64, pitch: f64, between: Between, d: f64) -> Option<Bounds>
    ensures { result ≡ span_of r.bundle.role r.endpoint rail pitch between.lower between.upper d }
{
    match r.bundle.role {
        Role::Input => {
            let nearest = r.endpoint + rail + pitch;
            let low = plan_numbers::raise(nearest, between.lower);
            let high = plan_numbers::lower(d, between.upper);
            unless_crossed(low, d, high)
        }
        Role::Output => {
            let nearest = r.endpoint - rail - pitch;
            let low = plan_numbers::raise(d, between.lower);
            let high = plan_numbers::lower(nearest, between.upper);
            unless_crossed(low, d, high)
        }
    }
}

// The bounds of a bundle's collector, between a lower and an upper bound. Rail and pitch by themselves: a
// Setting would ask of the caller's routes what is not needed here.
pub fn interior_collector_bounds(
    r: Reached,
    rail: f64,
    pitch: f64,
    between: Between,
) -> Option<Bounds>
    ensures { (b : Board) (given : List Route) (points : List Float) (starts counts : List ℕ) → Tells b given points starts counts rail pitch r → result ≡ bounds_of b given r.bundle between.lower between.upper }
{
    if r.bundle.width <= 1 {
        return None;
    }
    if r.bundle.count <= 1 {
        return None;
    }
    match r.reached {
        Bound::None => None,
        Bound::At(d) => span_of(r, rail, pitch, between, d),
    }
}
