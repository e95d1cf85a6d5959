// Replays records of the Rust's sheet: calls on standard input, results on standard output, in the
// formats of rust/oracle/README.md, operation 39: a job with its plan in, the sheet before the last shift
// and after it out, or a refusal. A record that is too long, or the end of the input, ends the program.

#![tactic(auto)]

ghost use Rattle.std.specs.Prelude.{◌≡◌, ◌≤◌, length};
ghost use Rattle.limits.specs.Limits.{max_nodes, max_edges, max_bundles, max_members};
ghost use Rattle.answer.specs.SheetTables.{Windows};
ghost use Rattle.job_tables.specs.Came.{Came};
ghost use Rattle.plan.specs.MemberColumns.{edges_of};
ghost use Rattle.draw_job.specs.JobTables.{MembersOn, OnSheet, Lent};

use answer::Frame;
use board::{DrawnBundle, DrawnBundles, Edge, Member, PlacedNode};
use draw_job::SheetWork;
use drawing::GeometryVisits;
use geometry::Point;
use job::Job;
use limits::{
    ALL_SLOT_NUMBERS, ANY_ANSWER_ROOM, JOB_ROOM, MAX_BUNDLES, MAX_EDGES, MAX_MEMBERS,
    POINT_NUMBERS, SLOT_NUMBERS,
};
use plan::{Bound, NO_X, Planned, Planning};
use route::PresentRoutes;
use search::TapVisits;
use turns::TurnWork;

// The number of the one operation that is replayed here.
const SHEET_OF_A_PLAN: u64 = 0x39;

// The bytes of a result: a sheet before its last shift and after it, and more.
const OUT_ROOM: usize = 131072;

// ---- the plan of a record
//
// plan_replay has the same: of the crates below both, those that know a plan read no records.
fn plan_at(record: &[u8], from: usize, left: TapVisits) -> Planning {
    let mut rows = [NO_X; MAX_BUNDLES];
    let mut at = from;
    for row in &mut rows {
        *row = Planned {
            x: Bound::from(records::option_at(record, at)),
        };
        at = records::plus(at, 9);
    }
    Planning { rows, left }
}

// ---- the result

// Number, bundle and visits left: 7 bytes.
fn put_verdict(out: &mut [u8; OUT_ROOM], number: u64, bundle: usize, left: GeometryVisits) -> usize
    ensures { result ≡ 7 }
{
    records::put_u8(out, 0, number);
    records::put_u16(out, 1, bundle as u64);
    records::put_u32(out, 3, left.0 as u64);
    7
}

// A sheet, written as an answer is, by way of a page with room for every table. The taps stand one after the
// other.
#[derive(Clone, Copy)]
struct WrittenSheet<'a> {
    nodes: &'a [PlacedNode],
    edges: &'a [Edge],
    members: &'a [Member],
    drawn: &'a [DrawnBundle],
    present: PresentRoutes<'a>,
    taps: &'a [Point],
}

// Answers the place after it.
fn put_page(
    page: &mut [u8; ANY_ANSWER_ROOM],
    f: Frame,
    s: WrittenSheet,
    out: &mut [u8; OUT_ROOM],
    at: usize,
) -> usize
    requires nodes_le_max_nodes { (length s.nodes.now ≤ max_nodes) × (length s.edges.now ≤ max_edges) × (length s.drawn.now ≤ max_bundles) × (length s.members.now ≤ max_members) }
    requires edges_in_bounds { length s.edges.now ≤ length s.present.counts.now }
    requires windows { Windows s.drawn.now (length s.members.now) × (length s.members.now ≤ length s.taps.now) }
    requires members_on { MembersOn s.edges.now s.members.now }
{
    let t = draw_job::tap_rows(s.edges, s.members, s.taps);
    let r = s.present;
    let n = answer::write_answer(
        page,
        f,
        s.nodes,
        s.edges,
        r.points,
        r.counts,
        s.drawn,
        t.as_slice(),
    );
    records::put(out, at, &page[..n]);
    records::plus(at, n)
}

// The sheet before the last shift, its width and height 0, and after it. Taps and points are slices of
// their own: as fields of one lent struct, lent on at a time and told of afterwards, they did not prove.
fn put_pages<'a>(
    j: &'a Job,
    drawn: &'a DrawnBundles,
    left: TapVisits,
    rest: GeometryVisits,
    points: &mut [f64],
    counts: &'a [usize],
    taps: &mut [Point],
    page: &mut [u8; ANY_ANSWER_ROOM],
    out: &mut [u8; OUT_ROOM],
) -> usize
    requires on_sheet { OnSheet j.now (edges_of j.now.members.items) drawn.now points.old counts.now taps.old }
{
    let nodes = j.nodes.as_slice();
    let edges = j.edges.as_slice();
    let members = j.members.as_slice();
    let rows = drawn.as_slice();
    let start = put_verdict(out, 0, rows.len(), rest);
    let present = PresentRoutes { points, counts };
    let before = WrittenSheet {
        nodes,
        edges,
        members,
        drawn: rows,
        present,
        taps,
    };
    let unsized_frame = Frame {
        tap_visits: left.0,
        geometry_visits: rest.0,
        width: 0.0,
        height: 0.0,
    };
    let next = put_page(page, unsized_frame, before, out, start);
    let l = normalize::normalize_layout(nodes, rows, points, counts, taps);
    let present = PresentRoutes { points, counts };
    let after = WrittenSheet {
        nodes: l.nodes.as_slice(),
        edges,
        members,
        drawn: l.drawn.as_slice(),
        present,
        taps,
    };
    let frame = Frame {
        tap_visits: left.0,
        geometry_visits: rest.0,
        width: l.width,
        height: l.height,
    };
    put_page(page, frame, after, out, next)
}

// The sheet of a plan in lent slices. draw_job::draw_in has the same call and what goes into it: a function of
// both would be lent nine slices and tables, and hand the drawing and the visits back.
fn draw_in(
    j: &Job,
    given: &[f64],
    p: Planning,
    work: SheetWork,
    points: &mut [f64],
    page: &mut [u8; ANY_ANSWER_ROOM],
    out: &mut [u8; OUT_ROOM],
) -> usize
    requires came { Came j.now given.now }
    requires lent { Lent j.now work.taps.now points.old work.counts.now work.mask.now work.scratch.now }
{
    let board = job_tables::board_tables(j);
    let offsets = plan_depths::corridor_depth_offsets(board);
    let SheetWork {
        taps,
        counts,
        mask,
        scratch,
    } = work;
    let taps = &mut taps[..j.members.len()];
    let mut turn_work = TurnWork {
        mask: &mut mask[..],
        scratch: &mut scratch[..],
    };
    let mut visits = GeometryVisits(j.grants.geometry_visits);
    let d = turns::draw_sheet(
        board,
        j.flags.permits_crossings,
        p.rows,
        offsets,
        given,
        taps,
        points,
        counts,
        &mut turn_work,
        &mut visits,
    );
    match d.ended {
        Err(r) => put_verdict(out, u8::from(r) as u64, d.drawn.len(), visits),
        Ok(()) => put_pages(j, &d.drawn, p.left, visits, points, counts, taps, page, out),
    }
}

// The same, in slices of its own.
fn draw(
    j: &Job,
    given: &[f64; POINT_NUMBERS],
    p: Planning,
    page: &mut [u8; ANY_ANSWER_ROOM],
    out: &mut [u8; OUT_ROOM],
) -> usize
    requires came { Came j.now given.now }
{
    let mut taps = [Point { x: 0.0, y: 0.0 }; MAX_MEMBERS];
    let mut points = [0.0; ALL_SLOT_NUMBERS];
    let mut counts = [0; MAX_EDGES];
    let mut mask = [false; MAX_EDGES];
    let mut scratch = [0.0; SLOT_NUMBERS];
    let work = SheetWork {
        taps: &mut taps[..],
        counts: &mut counts[..j.edges.len()],
        mask: &mut mask[..],
        scratch: &mut scratch[..],
    };
    draw_in(j, given, p, work, &mut points, page, out)
}

// ---- the records

// The result of one record; answers its length. A record of another operation has an empty one.
fn answer(
    record: &[u8],
    given: &mut [f64; POINT_NUMBERS],
    page: &mut [u8; ANY_ANSWER_ROOM],
    out: &mut [u8; OUT_ROOM],
) -> usize {
    if record.len() < 1 {
        return 0;
    }
    if records::u8_at(record, 0) != SHEET_OF_A_PLAN {
        return 0;
    }
    let size = records::job_size(record, 1, record.len() - 1);
    let end = 1 + size;
    match job_reader::read_job(&record[1..end], given) {
        Ok(j) => {
            let p = plan_at(record, end, TapVisits(j.grants.tap_visits));
            draw(&j, given, p, page, out)
        }
        Err(r) => {
            records::put_u8(out, 0, u64::from(u8::from(r)));
            1
        }
    }
}

// One record; answers whether there was one.
fn replay_one(
    space: &mut [u8],
    given: &mut [f64; POINT_NUMBERS],
    page: &mut [u8; ANY_ANSWER_ROOM],
    out: &mut [u8; OUT_ROOM],
) -> bool {
    let Some(n) = records::next(space) else {
        return false;
    };
    let m = answer(&space[..n], given, page, out);
    records::write(out, m)
}

fn main() {
    let mut space = [0u8; JOB_ROOM];
    let mut given = [0.0; POINT_NUMBERS];
    let mut page = [0u8; ANY_ANSWER_ROOM];
    let mut out = [0u8; OUT_ROOM];
    records::each(|| replay_one(&mut space, &mut given, &mut page, &mut out));
}
