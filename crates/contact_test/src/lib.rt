// Where a bus and a run meet: the contact test, which says which kind of contact, and the spacing
// test.
//
// Ported from cachanova/schemweave, commit c4a1a2c60a, crates/schemweave/src/boundary_bundles.rs
// (Apache-2.0, see NOTICE); names are those of that module where it has one. Every test compares
// and rounds as the definition that its contract cites says: nothing here has a tolerance but
// preserved_point_matches.

#![tactic(auto)]

ghost use Rattle.std.specs.Prelude.{◌≡◌};
ghost use Rattle.std.proofs.Props.{props};
ghost use Rattle.geometry.specs.Contact.{matches, slanted, across, upright, place, in_line, crossing, meet, at_tap, strict};
ghost use Rattle.geometry.specs.Kind.{kind_at, kind_of, kind, disallowed};
ghost use Rattle.geometry.specs.Crossing.{is_strict, crossing_place};
ghost use Rattle.geometry.specs.Apart.{trunk, over, beside, apart};
ghost use Rattle.geometry.specs.Spacing.{overlap_positive, too_close};

use geometry::{Contact, Meet, Point, Segment, Span, Trunk};

// A segment of a bundle, and the trunk that it lies on, worked out once for all runs.
#[derive(Clone, Copy)]
pub struct Bus {
    pub segment: Segment,
    pub line: Trunk,
    pub ghost worked_out: { line ≡ trunk segment } by { Prim.hlevel props },
}

// Same place: both rounded differences are at most 1e-7 in magnitude.
pub fn preserved_point_matches(left: Point, right: Point) -> bool
    ensures { result ≡ matches left right }
{
    binary64::same_place(left.x, right.x) & binary64::same_place(left.y, right.y)
}

// ---- segments_have_disallowed_contact, told apart by kind

pub fn is_slanted(run: Segment) -> bool
    ensures { result ≡ slanted run.start run.end }
{
    !(run.start.y == run.end.y) & !(run.start.x == run.end.x)
}

// span_across and span_upright stay apart: the coordinates that the one reads the other passes over, and a
// point with its two exchanged would have to be made for one to serve.

pub fn span_across(run: Segment) -> Span
    ensures { result ≡ across run.start run.end }
{
    Span {
        fixed: run.start.y,
        low: binary64::min(run.start.x, run.end.x),
        high: binary64::max(run.start.x, run.end.x),
    }
}

pub fn span_upright(run: Segment) -> Span
    ensures { result ≡ upright run.start run.end }
{
    Span {
        fixed: run.start.x,
        low: binary64::min(run.start.y, run.end.y),
        high: binary64::max(run.start.y, run.end.y),
    }
}

// level is the definition's word for the direction of two spans in one line, and no switch between two ways
// to work: which coordinate is fixed.

fn placed(level: bool, fixed: f64, moving: f64) -> Point
    ensures { result ≡ place level fixed moving }
{
    if level {
        Point {
            x: moving,
            y: fixed,
        }
    } else {
        Point {
            x: fixed,
            y: moving,
        }
    }
}

// Where two spans in one direction meet.
fn meet_in_line(level: bool, bus: Span, route: Span) -> Meet
    ensures { result ≡ in_line level bus route }
{
    if !(bus.fixed == route.fixed) | (bus.low > route.high) | (route.low > bus.high) {
        return Meet::Apart;
    }
    let low = binary64::max(bus.low, route.low);
    let high = binary64::min(bus.high, route.high);
    if low < high {
        return Meet::Overlap;
    }
    Meet::One(placed(level, bus.fixed, low))
}

// Where a level span h and an upright span v meet.
fn meet_crossing(h: Span, v: Span) -> Meet
    ensures { result ≡ crossing h v }
{
    if is_over(h, v) {
        return Meet::One(Point {
            x: v.fixed,
            y: h.fixed,
        });
    }
    Meet::Apart
}

// Where a bus and a run meet, neither being slanted.
#[tactic(auto, unfolding(geometry::specs::Contact::meet))]
pub fn meeting(bus: Segment, run: Segment) -> Meet
    ensures { result ≡ meet bus run.start run.end }
{
    if bus.start.y == bus.end.y {
        let h = span_across(bus);
        if run.start.y == run.end.y {
            meet_in_line(true, h, span_across(run))
        } else {
            meet_crossing(h, span_upright(run))
        }
    } else {
        let v = span_upright(bus);
        if run.start.y == run.end.y {
            meet_crossing(span_across(run), v)
        } else {
            meet_in_line(false, v, span_upright(run))
        }
    }
}

fn is_at_tap(tap: Option<Point>, p: Point) -> bool
    ensures { result ≡ at_tap tap p }
{
    tap.is_some_and(|t| preserved_point_matches(t, p))
}

// Whether p is in the same place as none of the four ends.
fn is_strict(bus: Segment, run: Segment, p: Point) -> bool
    ensures { result ≡ strict bus run.start run.end p }
{
    !preserved_point_matches(bus.start, p)
        & !preserved_point_matches(bus.end, p)
        & !preserved_point_matches(run.start, p)
        & !preserved_point_matches(run.end, p)
}

// The kind of a bus and a run that meet at p alone.
fn kind_at(bus: Segment, run: Segment, tap: Option<Point>, p: Point) -> Contact
    ensures { result ≡ kind_at bus run.start run.end tap p }
{
    let perpendicular = (bus.start.y == bus.end.y) != (run.start.y == run.end.y);
    let inner = is_strict(bus, run, p);
    if perpendicular & inner {
        return Contact::StrictCrossing;
    }
    let tapped = is_at_tap(tap, p);
    let at_a = preserved_point_matches(run.start, p);
    let at_b = preserved_point_matches(run.end, p);
    if tapped & (at_a | at_b) {
        return Contact::TouchAtTap;
    }
    Contact::TouchElsewhere
}

// The kind by where the two meet, neither being slanted.
fn kind_of(bus: Segment, run: Segment, tap: Option<Point>, m: Meet) -> Contact
    ensures { result ≡ kind_of bus run.start run.end tap m }
{
    match m {
        Meet::Apart => Contact::Apart,
        Meet::Overlap => Contact::Overlap,
        Meet::One(p) => kind_at(bus, run, tap, p),
    }
}

// The test of a bus against a run: request F-6.
#[tactic(auto, unfolding(geometry::specs::Kind::kind))]
pub fn contact_kind(bus: Segment, run: Segment, tap: Option<Point>) -> Contact
    ensures { result ≡ kind bus run.start run.end tap }
{
    if (run.start.x == run.end.x) & (run.start.y == run.end.y) {
        return Contact::Apart;
    }
    let bus_slanted = is_slanted(bus);
    let route_slanted = is_slanted(run);
    if bus_slanted | route_slanted {
        return Contact::Slanted;
    }
    kind_of(bus, run, tap, meeting(bus, run))
}

// Which kinds a caller disallows: segments_have_disallowed_contact by the kind. permitted is flag
// bit 1.
pub fn is_disallowed(kind: Contact, permitted: bool) -> bool
    ensures { result ≡ disallowed permitted kind }
{
    match kind {
        Contact::Apart | Contact::TouchAtTap => false,
        Contact::StrictCrossing => !permitted,
        Contact::TouchElsewhere | Contact::Overlap | Contact::Slanted => true,
    }
}

pub fn is_strict_crossing(kind: Contact) -> bool
    ensures { result ≡ is_strict kind }
{
    kind == Contact::StrictCrossing
}

// Where a bus and a run that cross strictly do: no number is worked out.
pub fn crossing_point(bus: Segment, run: Segment) -> Point
    ensures { result ≡ crossing_place bus run.start }
{
    if bus.start.y == bus.end.y {
        Point {
            x: run.start.x,
            y: bus.start.y,
        }
    } else {
        Point {
            x: bus.start.x,
            y: run.start.y,
        }
    }
}

// ---- parallel_segments_are_too_close

pub fn intervals_overlap_positive(left_a: f64, left_b: f64, right_a: f64, right_b: f64) -> bool
    ensures { result ≡ overlap_positive left_a left_b right_a right_b }
{
    let left_low = binary64::min(left_a, left_b);
    let right_high = binary64::max(right_a, right_b);
    let right_low = binary64::min(right_a, right_b);
    let left_high = binary64::max(left_a, left_b);
    (left_low < right_high) & (right_low < left_high)
}

#[tactic(auto, unfolding(geometry::specs::Spacing::too_close))]
pub fn parallel_segments_are_too_close(left: Segment, right: Segment, spacing: f64) -> bool
    ensures { result ≡ too_close left right spacing }
{
    if spacing <= 0.0 {
        return false;
    }
    let a = left.start;
    let b = left.end;
    let c = right.start;
    let d = right.end;
    let left_horizontal = a.y == b.y;
    let right_horizontal = c.y == d.y;
    if left_horizontal != right_horizontal {
        return false;
    }
    if left_horizontal {
        intervals_overlap_positive(a.x, b.x, c.x, d.x) & (binary64::abs(a.y - c.y) < spacing)
    } else {
        intervals_overlap_positive(a.y, b.y, c.y, d.y) & (binary64::abs(a.x - c.x) < spacing)
    }
}

// ---- a run that is apart from a bus

pub fn trunk_of(bus: Segment) -> Trunk
    ensures { result ≡ trunk bus }
{
    if is_slanted(bus) {
        return Trunk::Slanted;
    }
    if bus.start.y == bus.end.y {
        return Trunk::Level(span_across(bus));
    }
    Trunk::Upright(span_upright(bus))
}

// A bus of this segment.
pub fn bus_of(segment: Segment) -> Bus
    ensures { result.segment ≡ segment }
{
    Bus {
        segment,
        line: trunk_of(segment),
    }
}

fn is_over(h: Span, v: Span) -> bool
    ensures { result ≡ over h v }
{
    (h.low <= v.fixed) & (v.fixed <= h.high) & (v.low <= h.fixed) & (h.fixed <= v.high)
}

fn is_beside(s: Span, at: f64, spacing: f64) -> bool
    ensures { result ≡ beside s at spacing }
{
    let gap = binary64::abs(s.fixed - at);
    !(s.fixed == at) & !(gap < spacing)
}

// Whether a run has no contact with a bus and is not too close to it, as far as a few comparisons
// tell: most looks of the contact check end here.
#[tactic(auto, unfolding(geometry::specs::Apart::apart))]
pub fn is_apart(t: Trunk, spacing: f64, run: Segment) -> bool
    ensures { result ≡ apart t spacing run.start run.end }
{
    match t {
        Trunk::Slanted => false,
        Trunk::Level(span) => {
            if run.start.y == run.end.y {
                return is_beside(span, run.start.y, spacing);
            }
            run.start.x == run.end.x && !is_over(span, span_upright(run))
        }
        Trunk::Upright(span) => {
            if run.start.y == run.end.y {
                return !is_over(span_across(run), span);
            }
            run.start.x == run.end.x && is_beside(span, run.start.x, spacing)
        }
    }
}
