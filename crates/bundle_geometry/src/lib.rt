// build_geometry: the collector, the spine and the taps of a bundle.
//
// Ported from cachanova/schemweave, commit c4a1a2c60a, crates/schemweave/src/boundary_bundles.rs
// (Apache-2.0, see NOTICE). The present routes are in slots (crate route). Member k of the table of
// members has its tap at place k of taps; a bundle's members and taps are lent as slices of just these.

#![tactic(auto)]

ghost use Rattle.std.specs.Prelude.{◌≡◌, length, map, is_some};
ghost use Rattle.geometry.specs.Lent.{route_lent};
ghost use Rattle.route.specs.Slots.{routes_of};
ghost use Rattle.plan.specs.Depths.{number};
ghost use Rattle.plan.specs.MemberColumns.{edges_of, lanes_of};
ghost use Rattle.std.specs.Float.{binary64};
ghost use Rattle.std.specs.Float.Ieee.{le, add, sub, div};
ghost use Rattle.binary64.specs.Order.{magnitude};
ghost use Rattle.board.specs.Board.{bundle_pitch};
ghost use Rattle.drawing.specs.Build.{pt, seg, trunk_met, trunk_taps, lowest, highest, center, rail_low, rail_high, all_at};
ghost use Rattle.drawing.specs.Sheet.{planned_x};
ghost use Rattle.checks.specs.CheckRows.{drawn_of, Tabled};
ghost use Rattle.route.specs.Lent.{routes_lent};
ghost use Rattle.checks.specs.LentRows.{taps_in, tapped_in, rail_place, EdgesBelow};
ghost use Rattle.checks.specs.MemberSlices.{members_from, Untouched, Known, rail_point, interior_at, Row, drawn_row, inside_with, railed_with, corner_with, Draws};

use board::{Bundle, DrawnBundle, Member, Options};
use geometry::{Point, Role, RouteView, Segment};
use plan::Bound;
use route::PresentRoutes;

// The lowest and the highest y of a bundle's taps and its endpoint.
#[derive(Clone, Copy)]
pub struct Reach {
    pub low: f64,
    pub high: f64,
}

// A bundle that is to be drawn, and where its port stands.
#[derive(Clone, Copy)]
struct PlacedBundle {
    options: Options,
    bundle: Bundle,
    end: Point,
}

// ---- build_interior_geometry

// Where a route has its tap at x: an input's is its first crossing, an output's its last, two functions
// of the Rust.
#[tactic(auto, unfolding(drawing::specs::Build::trunk_met))]
fn trunk_tap(role: Role, pitch: f64, x: f64, route: RouteView) -> Option<(usize, Point)>
    ensures { result ≡ trunk_met role pitch x (route_lent route.entry) }
{
    match role {
        Role::Input => route_crossings::first_shared_trunk_intersection(route, x, role, pitch),
        Role::Output => route_crossings::last_shared_trunk_intersection(route, x, role, pitch),
    }
}

// That there is a place for each member's tap is asked: a fact of the two slices together.

// Each member's tap at x, if every member's route has one; else some of the taps may have been written.
#[tactic(auto, using(crate::proofs::Taps::trunk_end))]
fn trunk_taps(
    role: Role,
    pitch: f64,
    x: f64,
    members: &[Member],
    present: PresentRoutes,
    taps: &mut [Point],
) -> Option<()>
    requires tapped { length taps.old ≡ length members.now }
    requires known { EdgesBelow (length present.counts.now) members.now }
    ensures told { tapped_in (is_some result) members.now taps.new ≡ trunk_taps role pitch x members.now (routes_lent present.entry) }
{
    for (i, member) in members.iter().enumerate() {
        let route = route_slots::slot_of(present, member.edge);
        let (k, p) = trunk_tap(role, pitch, x, route)?;
        taps[i] = p;
    }
    Some(())
}

// How far a bundle's taps reach from y.
#[tactic(auto, using(crate::proofs::Taps::low_next, crate::proofs::Taps::high_next, crate::proofs::Taps::low_end, crate::proofs::Taps::high_end))]
fn tap_reach(y: f64, taps: &[Point]) -> Reach
    ensures low { result.low ≡ lowest y (taps_in taps.now) }
    ensures high { result.high ≡ highest y (taps_in taps.now) }
{
    let mut low = y;
    let mut high = y;
    for p in taps {
        low = binary64::min(low, p.y);
        high = binary64::max(high, p.y);
    }
    Reach { low, high }
}

// ---- the interior test of rewrite_member_routes

// Whether every tap stands at x.
fn taps_are_at(x: f64, taps: &[Point]) -> bool
    ensures { result ≡ all_at x (taps_in taps.now) }
{
    taps.iter().all(|p| p.x == x)
}

fn reaches(depth: f64, pitch: f64, from: f64, to: f64) -> bool
    ensures { result ≡ le (add binary64 depth pitch) (magnitude (sub binary64 to from)) }
{
    let d = binary64::abs(to - from);
    d >= depth + pitch
}

fn counts_interior(
    depth: f64,
    pitch: f64,
    collector: Segment,
    spine: Segment,
    taps: &[Point],
) -> bool
    ensures { result ≡ interior_at depth pitch collector spine (taps_in taps.now) }
{
    let x = spine.end.x;
    x == collector.start.x
        && (x == collector.end.x
            && (taps_are_at(x, taps) && reaches(depth, pitch, spine.start.x, x)))
}

// The row of a bundle drawn with these taps, whose collector stands at the corner's x and whose spine
// goes from end to the corner.
fn drawn_with(b: PlacedBundle, corner: Point, reach: Reach, taps: &[Point]) -> DrawnBundle
    ensures { result ≡ drawn_row b.options b.bundle (seg (pt corner.x reach.low) (pt corner.x reach.high)) (seg b.end corner) (taps_in taps.now) }
{
    let low = Point {
        x: corner.x,
        y: reach.low,
    };
    let high = Point {
        x: corner.x,
        y: reach.high,
    };
    let collector = Segment {
        start: low,
        end: high,
    };
    let spine = Segment {
        start: b.end,
        end: corner,
    };
    let depth = board::boundary_bundle_rail_depth(b.options);
    let pitch = board::pitch_of_bundle(b.options, b.bundle);
    let interior = counts_interior(depth, pitch, collector, spine, taps);
    DrawnBundle {
        id: b.bundle.id,
        interior,
        collector,
        spine,
        first: b.bundle.first,
        count: b.bundle.count,
    }
}

// With taps at the planned x.
#[tactic(auto, unfolding(checks::specs::MemberSlices::inside_with))]
fn build_inside(b: PlacedBundle, x: f64, taps: &[Point]) -> DrawnBundle
    ensures { result ≡ inside_with b.options b.bundle b.end x (taps_in taps.now) }
{
    let reach = tap_reach(b.end.y, taps);
    let corner = Point { x, y: b.end.y };
    drawn_with(b, corner, reach, taps)
}

// ---- at the rail

fn half_of(lane: u32) -> f64
    ensures { result ≡ div binary64 (number lane) (number 2) }
{
    lane as f64 / 2.0
}

// The middle of a bundle's lanes.
fn middle_lane(members: &[Member]) -> f64
    ensures { result ≡ center members.now }
{
    match members.last() {
        Some(member) => half_of(member.tap_lane),
        None => half_of(0),
    }
}

fn rail_tap(end: Point, middle: f64, pitch: f64, lane: u32) -> Point
    ensures { result ≡ rail_point end middle pitch lane }
{
    Point {
        x: end.x,
        y: end.y + (lane as f64 - middle) * pitch,
    }
}

// Each member's tap on the rail.
fn rail_taps(end: Point, middle: f64, pitch: f64, members: &[Member], taps: &mut [Point])
    requires { length taps.old ≡ length members.now }
    ensures { taps.new ≡ map (rail_place end middle pitch) members.now }
{
    for (i, member) in members.iter().enumerate() {
        taps[i] = rail_tap(end, middle, pitch, member.tap_lane);
    }
}

// How far the first and the last tap reach from y.
fn rail_reach(y: f64, taps: &[Point]) -> Reach
    ensures low { result.low ≡ rail_low (taps_in taps.now) y }
    ensures high { result.high ≡ rail_high (taps_in taps.now) y }
{
    match (taps.first(), taps.last()) {
        (Some(a), Some(b)) => Reach {
            low: binary64::min(a.y, y),
            high: binary64::max(b.y, y),
        },
        _ => Reach { low: y, high: y },
    }
}

// A bundle drawn at the rail, its taps written.
#[tactic(auto, unfolding(checks::specs::MemberSlices::railed_with))]
fn build_rail(b: PlacedBundle, members: &[Member], taps: &mut [Point]) -> DrawnBundle
    requires { length taps.old ≡ length members.now }
    ensures row { result ≡ railed_with b.options b.bundle b.end (taps_in taps.new) }
    ensures placed { taps.new ≡ map (rail_place (corner_with b.options b.bundle b.end) (center members.now) (bundle_pitch b.options b.bundle)) members.now }
{
    let depth = board::boundary_bundle_rail_depth(b.options);
    let pitch = board::pitch_of_bundle(b.options, b.bundle);
    let role = b.bundle.role;
    let x = plan_numbers::inward(role, b.end.x, depth);
    let corner = Point { x, y: b.end.y };
    let middle = middle_lane(members);
    rail_taps(corner, middle, pitch, members, taps);
    let reach = rail_reach(corner.y, taps);
    drawn_with(b, corner, reach, taps)
}

// ---- build_geometry

// A bundle that ends at end, drawn at the planned x where each member's route has a tap there, else
// at the rail; its taps are written.
pub fn build_geometry(
    o: Options,
    end: Point,
    u: Bundle,
    planned: Bound,
    table: &[Member],
    present: PresentRoutes,
    taps: &mut [Point],
) -> DrawnBundle
    requires tabled { Tabled u.first u.count (edges_of table.now) taps.old }
    requires known { Known (edges_of table.now) u.first u.count (length present.counts.now) }
    ensures drawn { Draws o u end (members_from (edges_of table.now) (lanes_of table.now) u.first u.count) (planned_x planned) (routes_lent present.entry) (drawn_of (edges_of table.now) taps.new result) }
    ensures row { Row u result }
    ensures kept { Untouched taps.old taps.new u.first u.count }
{
    let b = PlacedBundle {
        options: o,
        bundle: u,
        end,
    };
    let members = &table[u.first..u.first + u.count];
    let own = &mut taps[u.first..u.first + u.count];
    match planned {
        Bound::None => build_rail(b, members, own),
        Bound::At(x) => {
            let pitch = board::pitch_of_bundle(o, u);
            let role = u.role;
            if trunk_taps(role, pitch, x, members, present, own).is_some() {
                return build_inside(b, x, own);
            }
            build_rail(b, members, own)
        }
    }
}
