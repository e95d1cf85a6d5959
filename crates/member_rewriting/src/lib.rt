// rewrite_member_routes: the routes of a bundle's members led to their taps.
//
// Ported from cachanova/schemweave, commit c4a1a2c60a, crates/schemweave/src/boundary_bundles.rs
// (Apache-2.0, see NOTICE). The present routes are in slots (crate route). A bundle's members and their
// taps are lent as slices of just these.

#![tactic(auto)]

ghost use Rattle.std.specs.Prelude.{ℕ, Bool, Float, ◌≡◌, suc, ◌+◌, ◌*◌, ◌-◌, ◌<◌, ◌≤◌, length, get_or, is_ok, IfErr};
ghost use Rattle.limits.specs.Limits.{max_lane, slot_points, slot_numbers};
ghost use Rattle.geometry.specs.Lent.{route_lent};
ghost use Rattle.refusal.specs.declared.Refusal.TheVariants.{TapUnreachable};
ghost use Rattle.route.specs.Slots.{routes_of, Held};
ghost use Rattle.route.specs.Contract.{Leaves};
ghost use Rattle.plan.specs.Depths.{number};
ghost use Rattle.plan.specs.BoardTables.{no_member};
ghost use Rattle.plan.specs.MemberColumns.{edges_of};
ghost use Rattle.drawing.specs.Build.{route_at};
ghost use Rattle.drawing.specs.Rewrite.{rewritten, put_route, rewrite_all};
ghost use Rattle.checks.specs.LentRows.{taps_of};
ghost use Rattle.checks.specs.MemberSlices.{depth_at, rewrite_with, routes_in, CountsKept, Roomy};
ghost use Rattle.member_rewriting.specs.Ways.{way_of, is_trunk, depth_of};

use board::Member;
use geometry::{Point, Role, RouteView};
use limits::SLOT_POINTS;
use refusal::Refusal;

// ---- rewrite_member_routes

// A lane is a number of the job's table, and its bound a fact of the table's rows: each function asks it.

// How a route is led to its tap: through its bundle's trunk, or by a corridor. Of a bundle's routes the
// number is where their corridors begin, of one route how deep its own is. No Option of a number: it would not
// say which way that is.
#[derive(Clone, Copy)]
pub enum Way {
    Trunk,
    Corridor(f64),
}

// How a bundle's routes are led to their taps: through its trunk if it counts as interior.
#[derive(Clone, Copy)]
pub struct Lead {
    pub way: Way,
    pub role: Role,
    pub pitch: f64,
}

// The way of the route at a tap lane.
fn way_at(way: Way, pitch: f64, lane: u32) -> Way
    requires { lane ≤ max_lane }
    ensures { (inside : Bool) (offset : Float) → way ≡ way_of inside offset → result ≡ way_of inside (depth_at offset pitch lane) }
{
    match way {
        Way::Trunk => Way::Trunk,
        Way::Corridor(offset) => Way::Corridor(plan_numbers::corridor_depth(offset, pitch, lane)),
    }
}

// A route rewritten into out. The four functions are the Rust's: one call with a role would only move the
// match.
#[tactic(auto, unfolding(drawing::specs::Rewrite::rewritten, crate::specs::Ways::is_trunk, crate::specs::Ways::depth_of))]
fn rewrite_route(lead: Lead, tap: Point, route: RouteView, out: &mut [f64]) -> Option<usize>
    requires { 2 * (route.count + 2) ≤ length out.old }
    ensures { Leaves result out.old out.new route.entry.count (rewritten (is_trunk lead.way) lead.role lead.pitch (depth_of lead.way) tap (route_lent route.entry)) }
{
    match (lead.way, lead.role) {
        (Way::Trunk, Role::Input) => {
            route_rewriting::rewrite_input_shared_trunk(route, tap, lead.pitch, out)
        }
        (Way::Trunk, Role::Output) => {
            route_rewriting::rewrite_output_shared_trunk(route, tap, lead.pitch, out)
        }
        (Way::Corridor(depth), Role::Input) => {
            route_rewriting::rewrite_input_route(route, tap, depth, out)
        }
        (Way::Corridor(depth), Role::Output) => {
            route_rewriting::rewrite_output_route(route, tap, depth, out)
        }
    }
}

// The route of one member, of edge e, rewritten in its slot. Where it cannot be (10), the slots stay as
// they are. points and counts stay two parameters, as in crate route_slots.
fn rewrite_member(
    lead: Lead,
    tap: Point,
    e: usize,
    points: &mut [f64],
    counts: &mut [usize],
    scratch: &mut [f64],
) -> Result<(), Refusal>
    requires { (e < length counts.old) × (slot_numbers * length counts.old ≤ length points.old) × Held counts.old × (get_or counts.old e 0 ≤ slot_points - 2) × (slot_numbers ≤ length scratch.old) }
    ensures told { routes_in (is_ok result) points.new counts.new ≡ put_route (rewrite_with (is_trunk lead.way) lead.role lead.pitch (depth_of lead.way) tap (route_at (routes_of points.old counts.old) e)) e (routes_of points.old counts.old) }
    ensures refusal { IfErr result (λ r. r ≡ TapUnreachable) }
    ensures kept { CountsKept counts.old counts.new e }
{
    let n = counts[e];
    if n < 2 {
        return Err(Refusal::TapUnreachable);
    }
    // By hand: slot_of says which route it is, and not that it has n points.
    let given = RouteView {
        points: &points[..],
        start: SLOT_POINTS * e,
        count: n,
    };
    let m = rewrite_route(lead, tap, given, &mut scratch[..]).ok_or(Refusal::TapUnreachable)?;
    if m < 2 {
        return Err(Refusal::TapUnreachable);
    }
    let made = RouteView {
        points: &scratch[..],
        start: 0,
        count: m,
    };
    route_slots::store_route(made, &mut points[..], &mut counts[..], e);
    Ok(())
}

// Every member's route rewritten. Where one cannot be (10), what the slots hold is not said.
pub fn rewrite_member_routes(
    lead: Lead,
    members: &[Member],
    taps: &[Point],
    points: &mut [f64],
    counts: &mut [usize],
    scratch: &mut [f64],
) -> Result<(), Refusal>
    requires roomy { Roomy (edges_of members.now) 0 0 (length members.now) points.old counts.old }
    requires small { (k : ℕ) → k < length members.now → (get_or members.now k no_member).tap_lane ≤ max_lane }
    requires tapped { length members.now ≤ length taps.now }
    requires scratch { slot_numbers ≤ length scratch.old }
    ensures told { (inside : Bool) (offset : Float) → lead.way ≡ way_of inside offset → routes_in (is_ok result) points.new counts.new ≡ rewrite_all inside lead.role lead.pitch offset (taps_of members.now taps.now) members.now (routes_of points.old counts.old) }
    ensures refusal { IfErr result (λ r. r ≡ TapUnreachable) }
    ensures hold { Held counts.new }
{
    // The taps are read by place and not zipped: what is asked of the members that are left goes by places.
    for (i, m) in members.iter().enumerate() {
        let way = way_at(lead.way, lead.pitch, m.tap_lane);
        rewrite_member(
            Lead { way, ..lead },
            taps[i],
            m.edge,
            &mut points[..],
            &mut counts[..],
            &mut scratch[..],
        )?;
    }
    Ok(())
}
