// Replays records of the Rust's plan: calls on standard input, results on standard output, in the
// formats of rust/oracle/README.md, operations 31 to 35, 37 and 3B. A record that is too long, or the
// end of the input, ends the program.

#![tactic(auto)]

ghost use Rattle.std.specs.Prelude.{◌≡◌, ◌≤◌, length};
ghost use Rattle.limits.specs.Limits.{max_members};
ghost use Rattle.plan.specs.Lent.{OffsetsLent};
ghost use Rattle.plan.specs.Prepared.{Short};
ghost use Rattle.job_tables.specs.Came.{Came};

use arrayvec::ArrayVec;
use asked::{plan_at, put_asked};
use corridors::{put_corridors, put_offsets};
use fields::Written;
use job::Job;
use limits::{CANDIDATE_ROOM, JOB_ROOM, MAX_MEMBERS, POINT_NUMBERS, SEARCH_WORK};
use operations::{Operation, Record, Request, start_of};
use plan::layout::{Layout, Setting};
use plan::search_work::SearchWork;
use plan::{Between, Bound, Offsets};
use plans::put_plan;
use search::{MemberRoutes, TapVisits};
use searches::{put_all_bounds, put_searches};

mod asked;
mod corridors;
mod fields;
mod operations;
mod plans;
mod searches;

// The bounds before the job; there are none where the job starts at once.
fn bounds_before(q: Request) -> Between {
    match q.record.operation {
        Operation::BoundsBetween | Operation::SearchesBetween => Between {
            lower: Bound::from(records::option_at(q.record.bytes, 1)),
            upper: Bound::from(records::option_at(q.record.bytes, 10)),
        },
        _ => Between {
            lower: Bound::None,
            upper: Bound::None,
        },
    }
}

// A request, the work and the output stay apart here and below: the request is copied and read, the others
// are lent on to be written, and a struct of them would be taken apart at every call.

// The calls about bundles and their members' routes: 33, 34, 37, and 33 without bounds.
fn put_layout(q: Request, layout: Layout, work: &mut SearchWork, out: &mut Written) {
    let between = bounds_before(q);
    match q.record.operation {
        Operation::Asked => {
            let p = plan_at(q.record.bytes, records::plus(1, q.record.size));
            put_asked(layout, p, out);
        }
        Operation::SearchesBetween => put_searches(layout, between, q.granted, work, out),
        _ => put_all_bounds(layout, between, out),
    }
}

// What was worked out of each bundle, and the calls about it.
fn put_reached(
    q: Request,
    offsets: Offsets,
    routes: MemberRoutes,
    work: &mut SearchWork,
    out: &mut Written,
)
    requires offsets_of { OffsetsLent q.tables offsets.rows }
    requires routed { (length routes.starts.now ≡ max_members) × Short routes.counts.now }
{
    let reaches = planner::reach_bundles(q.tables, offsets, routes);
    let setting = Setting {
        routes,
        rail: board::boundary_bundle_rail_depth(q.tables.options),
        pitch: board::pitch_of_sheet(q.tables.options),
    };
    let layout = Layout {
        setting,
        reaches: reaches.as_slice(),
    };
    put_layout(q, layout, work, out);
}

// The calls that need the members' routes. 3B is offsets, corridors, bounds and the plan in one. The steps of
// planner::plan_interior_collectors, since what lies between them is printed.
#[tactic(auto, using(planner::proofs::MemberTurns::clear))]
fn put_routed(q: Request, offsets: Offsets, work: &mut SearchWork, out: &mut Written)
    requires { OffsetsLent q.tables offsets.rows }
{
    let t = q.tables;
    let mut starts = [0; MAX_MEMBERS];
    let mut counts = [0; MAX_MEMBERS];
    planner::member_windows(t.edges, t.members, &mut starts, &mut counts);
    let routes = MemberRoutes {
        points: q.points,
        starts: &starts,
        counts: &counts,
    };
    match q.record.operation {
        Operation::Corridors => put_corridors(t, offsets, out),
        Operation::All => {
            put_offsets(t, offsets, out);
            put_corridors(t, offsets, out);
            put_reached(q, offsets, routes, work, out);
            put_plan(q, offsets, work, out);
        }
        _ => put_reached(q, offsets, routes, work, out),
    }
}

fn call(q: Request, work: &mut SearchWork, out: &mut Written) {
    let offsets = plan_depths::corridor_depth_offsets(q.tables);
    match q.record.operation {
        Operation::Plan => put_plan(q, offsets, work, out),
        Operation::Offsets => {
            out.put_mark(0);
            put_offsets(q.tables, offsets, out);
        }
        _ => {
            out.put_mark(0);
            put_routed(q, offsets, work, out);
        }
    }
}

// The same of a job that was read: its tables are as long as their types say, so what they name is
// there.
fn call_read<'x>(
    j: &Job,
    record: Record<'x>,
    points: &'x [f64; POINT_NUMBERS],
    work: &mut SearchWork,
    out: &mut Written,
)
    requires came { Came j.now points.now }
{
    let q = Request {
        record,
        tables: job_tables::board_tables(j),
        points,
        separates: j.flags.separates_collectors,
        granted: TapVisits(j.grants.tap_visits),
    };
    call(q, work, out);
}

// How many bytes of a record the job has: all that are left, but where a plan stands after it.
fn size_of(record: &[u8], op: Operation, from: usize, rest: usize) -> usize
    ensures { result ≤ rest }
{
    match op {
        Operation::Asked => records::job_size(record, from, rest),
        _ => rest,
    }
}

// The result of one record; none where there is no job.
fn answer(
    bytes: &[u8],
    points: &mut [f64; POINT_NUMBERS],
    work: &mut SearchWork,
    out: &mut Written,
) {
    out.bytes.clear();
    let operation = Operation::from(records::u8_at(bytes, 0) as u8);
    let from = start_of(operation);
    if bytes.len() < from {
        return;
    }
    let size = size_of(bytes, operation, from, bytes.len() - from);
    let end = from + size;
    match job_reader::read_job(&bytes[from..end], points) {
        Ok(j) => {
            let record = Record {
                operation,
                bytes,
                size,
            };
            call_read(&j, record, points, work, out);
        }
        Err(r) => out.put_mark(u8::from(r)),
    }
}

// One record; answers whether there was one.
fn replay_one(
    space: &mut [u8],
    points: &mut [f64; POINT_NUMBERS],
    work: &mut SearchWork,
    out: &mut Written,
) -> bool {
    let Some(n) = records::next(space) else {
        return false;
    };
    answer(&space[..n], points, work, out);
    records::write(out.bytes.as_slice(), out.bytes.len())
}

fn main() {
    let mut space = [0u8; JOB_ROOM];
    let mut points = [0.0; POINT_NUMBERS];
    let mut xs = [0.0; CANDIDATE_ROOM];
    let mut scratch = [0.0; SEARCH_WORK];
    let mut work = SearchWork {
        xs: &mut xs,
        scratch: &mut scratch,
    };
    let mut out = Written {
        bytes: ArrayVec::new(),
    };
    records::each(|| replay_one(&mut space, &mut points, &mut work, &mut out));
}
