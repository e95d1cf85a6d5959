// A job that was read, drawn: the plan (13, or 17 and 18), the sheet (10, 11, 12, 14), the last refusals
// (19, 16), the last shift, the answer and what else is wanted.
//
// Ported from cachanova/schemweave, commit c4a1a2c60a, crates/schemweave/src/boundary_bundles.rs
// (Apache-2.0, see NOTICE).

#![tactic(auto)]

ghost use Rattle.std.specs.Prelude.{◌≡◌, false, ℕ, ◌≤◌, length};
ghost use Rattle.limits.specs.Limits.{max_members, page_room, crossings_room, candidate_room, search_work};
ghost use Rattle.components.specs.Settled.{step_in};
ghost use Rattle.promise.specs.Stage.{told_bytes};
ghost use Rattle.plan_stage.specs.Entries.{after_search, plan_phase, after_taking};
ghost use Rattle.plan_reader.specs.Reading.{told_plan};
ghost use Rattle.outputs.specs.Outputs.{lacks, after_all, outputs_told};
ghost use Rattle.job_tables.specs.Came.{job_in, Came};
ghost use Rattle.draw_job.specs.JobTables.{Writes, Ended, TapsOf, MembersOn, Lent};

use answer::Frame;
use board::{DrawnTap, DrawnTaps, Edge, Member};
use components::NoRoom;
use drawing::GeometryVisits;
use geometry::Point;
use job::Job;
use limits::SEARCH_WORK;
use outputs::Wants;
use plan::Planning;
use refusal::Refusal;
use route::PresentRoutes;
use search::TapVisits;
use table::Table;
use turns::TurnWork;

// What a sheet is drawn in, lent, beside the slots of the present routes: the tap of each member,
// of each route how many points it has, and the mask and the scratch of a turn. That scratch has room is
// asked, and no TurnWork is a field: of a struct that holds a `&mut` the borrow checker covers neither a
// ghost field, where it is written through in a loop, nor a field lent as `&mut` itself.
#[derive(Drop)]
pub struct SheetWork<'a> {
    pub taps: &'a mut [Point],
    pub counts: &'a mut [usize],
    pub mask: &'a mut [bool],
    pub scratch: &'a mut [f64],
}

// The same, for a board of so many routes.
pub fn work_for<'a>(work: SheetWork<'a>, routes: usize) -> SheetWork<'a>
    requires { routes ≤ length work.counts.now }
    ensures routes { length result.counts.now ≡ routes }
    ensures taps { length result.taps.now ≡ length work.entry.taps.now }
    ensures turn { (length result.mask.now ≡ length work.entry.mask.now) × (length result.scratch.now ≡ length work.entry.scratch.now) }
{
    let SheetWork {
        taps,
        counts,
        mask,
        scratch,
    } = work;
    SheetWork {
        taps,
        counts: &mut counts[..routes],
        mask,
        scratch,
    }
}

// ---- the sheet (10, 11, 12, 14) and the answer

// A tap for each member, with the id of its edge.
pub fn tap_rows(table: &[Edge], members: &[Member], taps: &[Point]) -> DrawnTaps
    requires members_le_max_members { (length members.now ≤ max_members) × (length members.now ≤ length taps.now) }
    requires members_on { MembersOn table.now members.now }
    ensures { TapsOf table.now members.now taps.now result }
{
    let mut rows = Table::new();
    for (i, m) in members.iter().enumerate() {
        rows.push(DrawnTap {
            edge: table[m.edge].id,
            point: taps[i],
        });
    }
    rows
}

// Our own plan (13), as one that was read.
#[tactic(auto, unfolding(plan_reader::specs::Reading::told_plan, plan_stage::specs::Entries::after_search))]
fn own_plan(s: Result<Planning, NoRoom>) -> Result<Planning, Refusal>
    ensures { (n : ℕ) → told_plan n result ≡ after_search (step_in n s) }
{
    Ok(s?)
}

// The plan, one that is given (17, 18) or our own (13), the sheet of it and the last shift, in lent
// slices; the answer, the page and the list of crossings, or a refusal, and nothing is written then. The
// job is lent: one that is handed on by value is copied. The three outputs stay apart: of a struct that
// lends them each contract would have to say besides that it still lends the same memory. The search keeps
// its stretches and sorts in the slots of the present routes: nothing is in them before the sheet.
fn drawn_in(
    wants: Wants,
    j: &Job,
    plan: &[u8],
    given: &[f64],
    sorted: &mut [f64],
    work: SheetWork,
    points: &mut [f64],
    answer: &mut [u8],
    page: &mut [u8],
    crossings: &mut [u8],
) -> Result<usize, Refusal>
    requires came { Came j.now given.now × (lacks wants.page (length page.old) page_room ≡ false) × (lacks wants.crossings (length crossings.old) crossings_room ≡ false) }
    requires plan_in_bounds { length (told_bytes (after_taking (job_in j.now given.now) (plan_phase wants.plan (job_in j.now given.now) plan.now))) ≤ length answer.old }
    requires search_work_in_bounds { (search_work ≤ length points.old) × (length sorted.old ≡ candidate_room) }
    requires lent { Lent j.now work.taps.now points.old work.counts.now work.mask.now work.scratch.now }
    ensures { Ended (record { answer = answer.old; page = page.old; crossings = crossings.old }) (record { answer = answer.new; page = page.new; crossings = crossings.new }) result (outputs_told wants (after_all wants (after_taking (job_in j.now given.now) (plan_phase wants.plan (job_in j.now given.now) plan.now)))) }
{
    let board = job_tables::board_tables(j);
    let offsets = plan_depths::corridor_depth_offsets(board);
    let p = if wants.plan {
        plan_reader::read_plan(plan, j.bundles.len(), j.grants.tap_visits, j.flags.on_grid)
    } else {
        own_plan(planner::plan_interior_collectors(
            board,
            offsets,
            given,
            j.flags.separates_collectors,
            TapVisits(j.grants.tap_visits),
            sorted,
            &mut points[..SEARCH_WORK],
        ))
    };
    let made = p?;
    let mut visits = GeometryVisits(j.grants.geometry_visits);
    let SheetWork {
        taps,
        counts,
        mask,
        scratch,
    } = work;
    let taps = &mut taps[..j.members.len()];
    let mut turn_work = TurnWork {
        mask: &mut mask[..],
        scratch: &mut scratch[..],
    };
    // sheet_replay has the same call; see there.
    let d = turns::draw_sheet(
        board,
        j.flags.permits_crossings,
        made.rows,
        offsets,
        given,
        taps,
        points,
        counts,
        &mut turn_work,
        &mut visits,
    );
    d.ended?;
    // Lent anew: the borrow checker covers no struct made of a `&mut` that was moved out of a parameter's field.
    let counts = &mut counts[..];
    let drawn = d.drawn.as_slice();
    let off_grid = wants.page & !j.flags.on_grid;
    if wants.crossings {
        crossing_output::list_crossings(
            j.flags.permits_crossings,
            off_grid,
            board.edges,
            drawn,
            PresentRoutes {
                points,
                counts: &counts[..],
            },
            crossings,
        )?;
    }
    if off_grid {
        return Err(Refusal::PageOffGrid);
    }
    let l = normalize::normalize_layout(board.nodes, drawn, points, counts, taps);
    let t = tap_rows(board.edges, board.members, taps);
    let nodes = l.nodes.as_slice();
    let shifted = l.drawn.as_slice();
    if wants.page {
        page_writer::put_page(page, shifted);
    }
    let frame = Frame {
        tap_visits: made.left.0,
        geometry_visits: visits.0,
        width: l.width,
        height: l.height,
    };
    Ok(answer::write_answer(
        answer,
        frame,
        nodes,
        board.edges,
        points,
        &counts[..],
        shifted,
        t.as_slice(),
    ))
}

// The same, with the notice of a refusal: the parameters are the same, since it hands on what it is lent.
pub fn draw_in(
    wants: Wants,
    j: &Job,
    plan: &[u8],
    given: &[f64],
    sorted: &mut [f64],
    work: SheetWork,
    points: &mut [f64],
    answer: &mut [u8],
    page: &mut [u8],
    crossings: &mut [u8],
) -> usize
    requires came { Came j.now given.now × (6 ≤ length answer.old) × (lacks wants.page (length page.old) page_room ≡ false) × (lacks wants.crossings (length crossings.old) crossings_room ≡ false) }
    requires plan_in_bounds { length (told_bytes (after_taking (job_in j.now given.now) (plan_phase wants.plan (job_in j.now given.now) plan.now))) ≤ length answer.old }
    requires search_work_in_bounds { (search_work ≤ length points.old) × (length sorted.old ≡ candidate_room) }
    requires lent { Lent j.now work.taps.now points.old work.counts.now work.mask.now work.scratch.now }
    ensures { Writes (record { answer = answer.old; page = page.old; crossings = crossings.old }) (record { answer = answer.new; page = page.new; crossings = crossings.new }) result (outputs_told wants (after_all wants (after_taking (job_in j.now given.now) (plan_phase wants.plan (job_in j.now given.now) plan.now)))) }
{
    let ended = drawn_in(
        wants, j, plan, given, sorted, work, points, answer, page, crossings,
    );
    match ended {
        Ok(length) => length,
        Err(r) => answer::write_notice(answer, u8::from(r)),
    }
}
