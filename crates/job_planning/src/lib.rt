// F-5, the planner: a job's bytes to its plan's, in lent slices. Reading (1, 3 to 9, 15), the plan (13);
// a refusal's notice stands at the front of the plan's buffer.
//
// Ported from cachanova/schemweave, commit c4a1a2c60a, crates/schemweave/src/boundary_bundles.rs
// (Apache-2.0, see NOTICE).

#![tactic(auto)]

ghost use Rattle.std.specs.Prelude.{◌≡◌, ◌≤◌, length};
ghost use Rattle.limits.specs.Limits.{point_numbers, candidate_room, search_work, plan_room};
ghost use Rattle.promise.specs.Stage.{planned};
ghost use Rattle.job_tables.specs.Came.{job_in, Came};
ghost use Rattle.plan_stage.specs.Entries.{after_search, plan_told};
ghost use Rattle.job_planning.specs.PlanWrites.{PlanWrites, PlanEnded};

use job::Job;
use refusal::Refusal;
use search::TapVisits;

// That the points are the job's is a fact of the job and the slice that it was read into.

// A job that was read, planned: the plan's bytes, or a refusal (13) and nothing written. A function of its own that
// takes the job by value: a caller that lent it would hold it twice, 58 KB, while it is read.
#[inline(never)]
fn planned_of(
    j: Job,
    given: &[f64],
    sorted: &mut [f64],
    work: &mut [f64],
    plan: &mut [u8],
) -> Result<usize, Refusal>
    requires came { Came j given.now × (plan_room ≤ length plan.old) }
    requires sorted_len { (length sorted.old ≡ candidate_room) × (length work.old ≡ search_work) }
    ensures { PlanEnded plan.old plan.new result (after_search (planned (job_in j given.now))) }
{
    let t = job_tables::board_tables(&j);
    let offsets = plan_depths::corridor_depth_offsets(t);
    let made = planner::plan_interior_collectors(
        t,
        offsets,
        given,
        j.flags.separates_collectors,
        TapVisits(j.grants.tap_visits),
        sorted,
        work,
    )?;
    Ok(plan_writer::write_plan(plan, &made.rows[..j.bundles.len()], made.left))
}

// A job read and planned: the plan's bytes, or the notice of a refusal (1, 3 to 9, 15, 13).
pub fn read_and_plan(
    job: &[u8],
    given: &mut [f64],
    sorted: &mut [f64],
    work: &mut [f64],
    plan: &mut [u8],
) -> usize
    requires given_len { (length given.old ≡ point_numbers) × (plan_room ≤ length plan.old) }
    requires sorted_len { (length sorted.old ≡ candidate_room) × (length work.old ≡ search_work) }
    ensures { PlanWrites plan.old plan.new result (plan_told job.now) }
{
    let ended = match job_reader::read_job(job, given) {
        Ok(j) => planned_of(j, given, sorted, work, plan),
        Err(r) => Err(r),
    };
    match ended {
        Ok(length) => length,
        Err(r) => answer::write_notice(plan, u8::from(r)),
    }
}
