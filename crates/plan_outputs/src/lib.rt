// What the inputs ask of the outputs.
//
// Ported from cachanova/schemweave, commit c4a1a2c60a, crates/schemweave/src/boundary_bundles.rs
// (Apache-2.0, see NOTICE).

#![tactic(auto)]

ghost use Rattle.std.specs.Prelude.{◌≡◌, List, map, ◌+◌, ◌≤◌, ◌<◌, length, take};
ghost use Rattle.plan.specs.Depths.{further, pitch_of};
ghost use Rattle.board.specs.Board.{Board};
ghost use Rattle.geometry.specs.Points.{Route};
ghost use Rattle.geometry.specs.Lent.{route_lent};
ghost use Rattle.plan.specs.declared.Bound.TheVariants.{None};
ghost use Rattle.plan.specs.Bounds.{if_at};
ghost use Rattle.plan.specs.Prepared.{Listing, SameBundles, x_of};
ghost use Rattle.plan.specs.Lent.{bundle_routes, BundleTells, LayoutTells};
ghost use Rattle.plan.specs.Over.{divergence_over};
ghost use Rattle.plan.specs.Plan.{diverges_at, Ranged, asked, required};

use board::Bundle;
use geometry::{Role, RouteView};
use plan::layout::Layout;
use plan::{Bound, Planning};
use search::MemberRoutes;

// ---- required_output_collector_x

// The end of a route's first run whose stretch holds x.
fn run_end(role: Role, pitch: f64, x: f64, route: RouteView) -> Bound
    ensures { result ≡ diverges_at role pitch x (route_lent route.entry) }
{
    for i in 0..route.count.saturating_sub(1) {
        let run = route_views::view_run(route, i);
        let s = shapes::shared_trunk_horizontal_range(run, role, pitch);
        if shapes::stretch_holds(s, x) {
            return Bound::At(run.end.x);
        }
    }
    Bound::None
}

// The furthest of the members' ends; absent where a member has none.
pub fn input_shared_trunk_divergence_x(routes: MemberRoutes, pitch: f64, u: Bundle, x: f64) -> Bound
    requires { u.first + u.count ≤ length routes.starts.now }
    ensures { result ≡ divergence_over u.role pitch x None (bundle_routes routes.entry u) }
{
    let mut d = Bound::None;
    for i in 0..u.count {
        let k = u.first + i;
        let route = search_runs::member_route(routes, k);
        let Bound::At(y) = run_end(u.role, pitch, x, route) else {
            return Bound::None;
        };
        d = plan_numbers::furthest(d, y);
    }
    d
}

// What one input asks of the outputs.
fn ask(routes: MemberRoutes, pitch: f64, u: Bundle, x: Bound) -> Bound
    requires { u.first + u.count ≤ length routes.starts.now }
    ensures { (b : Board) (given : List Route) → pitch ≡ pitch_of b u → BundleTells b given routes.entry u → result ≡ asked b given u x }
{
    match x {
        Bound::None => Bound::None,
        Bound::At(c) => {
            let d = input_shared_trunk_divergence_x(routes, pitch, u, c);
            match d {
                Bound::None => Bound::None,
                Bound::At(y) => Bound::At(binary64::max(c + pitch, y + pitch)),
            }
        }
    }
}

// As plan_numbers::raise, but what is raised may be absent too, so no one function serves both.
fn further_of(r: Bound, a: Bound) -> Bound
    ensures { result ≡ if_at a r (further r) }
{
    match a {
        Bound::None => r,
        Bound::At(y) => plan_numbers::furthest(r, y),
    }
}

// What the inputs in a list ask of the outputs.
pub fn required_output_collector_x(layout: Layout, which: &[usize], p: Planning) -> Bound
    requires { Listing which.now (length layout.reaches.now) }
    ensures { (b : Board) (given : List Route) (ranges : List Ranged) → LayoutTells b given layout.entry → SameBundles ranges layout.entry.reaches.now → result ≡ required b given ranges (map x_of (take (length layout.entry.reaches.now) p.rows)) None which.now }
{
    let mut r = Bound::None;
    for &i in which {
        let u = layout.reaches[i].bundle;
        let a = ask(layout.setting.routes, layout.setting.pitch, u, p.rows[i].x);
        r = further_of(r, a);
    }
    r
}
