// A job's bytes to its answer's and what else is wanted, in lent slices: reading (1, 3 to 9, 15), then
// the drawing of crate draw_job.
//
// Ported from cachanova/schemweave, commit c4a1a2c60a, crates/schemweave/src/boundary_bundles.rs
// (Apache-2.0, see NOTICE).

#![tactic(auto)]

ghost use Rattle.std.specs.Prelude.{◌≡◌, false, ◌≤◌, length};
ghost use Rattle.limits.specs.Limits.{max_edges, max_members, answer_room, page_room, crossings_room, point_numbers, slot_numbers, candidate_room};
ghost use Rattle.plan_stage.specs.Entries.{told_with};
ghost use Rattle.outputs.specs.Outputs.{lacks, after_all, outputs_told};
ghost use Rattle.draw_job.specs.JobTables.{Writes};

use draw_job::SheetWork;
use limits::{ALL_SLOT_NUMBERS, FEW_ROUTES, FEW_SLOT_NUMBERS};
use outputs::Wants;

// ---- the sheet (10, 11, 12, 14) and the answer

// The slices that the job is read into and sorted in have the sizes that the entry gives them: no heap is
// asked for, and the facts stand where the memory is handed on.

// The three outputs stay apart, as in draw_job::draw_in.

// Reads the job and draws it, with the slots of the present routes its own: 91 where that is enough, as
// most of a small board's time would go into clearing 256.
pub fn read_and_draw(
    wants: Wants,
    job: &[u8],
    plan: &[u8],
    given: &mut [f64],
    sorted: &mut [f64],
    work: SheetWork,
    answer: &mut [u8],
    page: &mut [u8],
    crossings: &mut [u8],
) -> usize
    requires given_len { (length given.old ≡ point_numbers) × (answer_room ≤ length answer.old) × (lacks wants.page (length page.old) page_room ≡ false) × (lacks wants.crossings (length crossings.old) crossings_room ≡ false) }
    requires sorted_len { length sorted.old ≡ candidate_room }
    requires edges_len { (length work.taps.now ≡ max_members) × (length work.counts.now ≡ max_edges) × (max_edges ≤ length work.mask.now) × (slot_numbers ≤ length work.scratch.now) }
    ensures { Writes (record { answer = answer.old; page = page.old; crossings = crossings.old }) (record { answer = answer.new; page = page.new; crossings = crossings.new }) result (outputs_told wants (after_all wants (told_with wants.plan job.now plan.now))) }
{
    let j = match job_reader::read_job(job, given) {
        Ok(j) => j,
        Err(r) => return answer::write_notice(answer, u8::from(r)),
    };
    let n = j.edges.len();
    let drawn = draw_job::work_for(work, n);
    if n <= FEW_ROUTES {
        let mut few = [0.0; FEW_SLOT_NUMBERS];
        return draw_job::draw_in(
            wants, &j, plan, given, sorted, drawn, &mut few, answer, page, crossings,
        );
    }
    let mut points = [0.0; ALL_SLOT_NUMBERS];
    draw_job::draw_in(
        wants,
        &j,
        plan,
        given,
        sorted,
        drawn,
        &mut points,
        answer,
        page,
        crossings,
    )
}
