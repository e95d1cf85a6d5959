// The interior test, the stretch of a run, where a vertical line meets a run, where a port stands.
//
// Ported from cachanova/schemweave, commit c4a1a2c60a, crates/schemweave/src/boundary_bundles.rs
// (Apache-2.0, see NOTICE); names are those of that module where it has one. Every test compares
// and rounds as the definition that its contract cites says, and none has a tolerance.

#![tactic(auto)]

ghost use Rattle.std.specs.Prelude.{◌≡◌};
ghost use Rattle.geometry.specs.Enters.{inside, passes_inside, enters};
ghost use Rattle.geometry.specs.Stretch.{stretch, holds, on_trunk};
ghost use Rattle.geometry.specs.Line.{on_level, on_upright, on_line};
ghost use Rattle.geometry.specs.Port.{port_point};

use geometry::{Node, Point, Role, Segment, Side, Span};

// ---- the interior test of verify_member_route_node_interiors

// Whether a span goes over the inside of a box: from corner to far in the direction that stays,
// from side to reach in the other.
fn goes_inside(s: Span, corner: f64, far: f64, side: f64, reach: f64) -> bool
    ensures { result ≡ inside s corner far side reach }
{
    (s.fixed > corner) & (s.fixed < far) & (s.low < reach) & (s.high > side)
}

// The test for a run that is level or upright.
#[tactic(auto, unfolding(geometry::specs::Enters::passes_inside))]
pub fn run_passes_inside(run: Segment, n: Node) -> bool
    ensures { result ≡ passes_inside run.start run.end n }
{
    let corner = n.corner;
    let far_x = corner.x + n.width;
    let far_y = corner.y + n.height;
    if run.start.y == run.end.y {
        let s = contact_test::span_across(run);
        goes_inside(s, corner.y, far_y, corner.x, far_x)
    } else {
        let s = contact_test::span_upright(run);
        goes_inside(s, corner.x, far_x, corner.y, far_y)
    }
}

// The test for any run: a slanted one is refused as one that enters.
pub fn run_enters(run: Segment, n: Node) -> bool
    ensures { result ≡ enters run.start run.end n }
{
    let refused = contact_test::is_slanted(run);
    let passes = run_passes_inside(run, n);
    refused | passes
}

// ---- stretches, and where a vertical line meets a run

pub fn shared_trunk_horizontal_range(
    run: Segment,
    role: Role,
    minimum_length: f64,
) -> Option<(f64, f64)>
    ensures { result ≡ stretch role minimum_length run.start run.end }
{
    if run.start.y != run.end.y {
        return None;
    }
    if run.start.x >= run.end.x {
        return None;
    }
    match role {
        Role::Input => {
            let high = run.end.x - minimum_length;
            if run.start.x <= high {
                Some((run.start.x, high))
            } else {
                None
            }
        }
        Role::Output => {
            let low = run.start.x + minimum_length;
            if low <= run.end.x {
                Some((low, run.end.x))
            } else {
                None
            }
        }
    }
}

pub fn stretch_holds(s: Option<(f64, f64)>, x: f64) -> bool
    ensures { result ≡ holds x s }
{
    s.is_some_and(|(low, high)| (x >= low) & (x <= high))
}

pub fn shared_trunk_horizontal_intersection(
    run: Segment,
    x: f64,
    role: Role,
    minimum_length: f64,
) -> Option<Point>
    ensures { result ≡ on_trunk role minimum_length x run.start run.end }
{
    let s = shared_trunk_horizontal_range(run, role, minimum_length);
    if stretch_holds(s, x) {
        let p = Point {
            x: x,
            y: run.start.y,
        };
        return Some(p);
    }
    None
}

// The line meets a level run.
fn is_on_level(run: Segment, x: f64) -> bool
    ensures { result ≡ on_level x run.start run.end }
{
    let low = binary64::min(run.start.x, run.end.x);
    let high = binary64::max(run.start.x, run.end.x);
    (run.start.y == run.end.y) & (x >= low) & (x <= high)
}

// An upright run lies on the line.
fn is_on_upright(run: Segment, x: f64) -> bool
    ensures { result ≡ on_upright x run.start run.end }
{
    (run.start.x == x) & (run.end.x == x)
}

// prefer_end is the Rust's own parameter. The point of a level run is made in both functions, as in the Rust's
// two: an `if` of their own beside it.
pub fn segment_vertical_line_intersection(run: Segment, x: f64, prefer_end: bool) -> Option<Point>
    ensures { result ≡ on_line prefer_end x run.start run.end }
{
    if is_on_level(run, x) {
        let p = Point {
            x: x,
            y: run.start.y,
        };
        return Some(p);
    }
    if is_on_upright(run, x) {
        if prefer_end {
            return Some(run.end);
        }
        return Some(run.start);
    }
    None
}

// ---- ports

pub fn port_point(node: Node, side: Side, offset: f64) -> Point
    ensures { result ≡ port_point node side offset }
{
    let corner = node.corner;
    match side {
        Side::North => Point {
            x: corner.x + offset,
            y: corner.y,
        },
        Side::East => Point {
            x: corner.x + node.width,
            y: corner.y + offset,
        },
        Side::South => Point {
            x: corner.x + offset,
            y: corner.y + node.height,
        },
        Side::West => Point {
            x: corner.x,
            y: corner.y + offset,
        },
    }
}
