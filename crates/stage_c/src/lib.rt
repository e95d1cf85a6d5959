// The entries of the stage for C: what the static library libstage.a exports. Each is the function of
// crate stage that has its name, with the same clauses, and only calls it.

#![tactic(auto)]

ghost use Rattle.std.specs.Prelude.{◌≡◌, true, false, ◌≤◌, length, take};
ghost use Rattle.std.proofs.lemmas.List.Edits.{sets};
ghost use Rattle.limits.specs.Limits.{plan_room};
ghost use Rattle.promise.specs.Stage.{told, written, stage_of};
ghost use Rattle.promise.specs.Demand3.{Demand3};
ghost use Rattle.last_shift.specs.InAnswer.{Demand3InAnswer};
ghost use Rattle.grid_promise.specs.Grid.{OnGrid};
ghost use Rattle.grid_promise.specs.GridAnswer.{Demand3OnGrid};
ghost use Rattle.page_promise.specs.PageReadsBack.{PageReadsBack};
ghost use Rattle.plan_stage.specs.Entries.{told_with, draw_told, plan_written, planner_of, draw_written, draw_of, in_turn};
ghost use Rattle.plan_stage.specs.PlanDemand3.{Demand3From, Demand3InAnswerFrom, OnGridFrom, Demand3OnGridFrom};
ghost use Rattle.crossing_promise.specs.Demand7.{Demand7};
ghost use Rattle.outputs.specs.Outputs.{wants_of, outputs_of};
ghost use Rattle.outputs.specs.Promises.{Promised, PromisedWith, CrossingsOnSheet};

// A job's answer and the outputs that the mask wants: `stage::stage_sheet`.
#[unsafe(no_mangle)]
pub extern "C" fn stage_sheet(
    wants: u32,
    job: &[u8],
    plan: &[u8],
    answer: &mut [u8],
    page: &mut [u8],
    crossings: &mut [u8],
) -> usize
    ensures answer { answer.new ≡ sets answer.old 0 (outputs_of wants job.now plan.now (length answer.old) (length page.old) (length crossings.old)).answer }
    ensures page { page.new ≡ sets page.old 0 (outputs_of wants job.now plan.now (length answer.old) (length page.old) (length crossings.old)).page }
    ensures crossings { crossings.new ≡ sets crossings.old 0 (outputs_of wants job.now plan.now (length answer.old) (length page.old) (length crossings.old)).crossings }
    ensures count { result ≡ length (outputs_of wants job.now plan.now (length answer.old) (length page.old) (length crossings.old)).answer }
    ensures untouched { result ≤ 6 → (page.new ≡ page.old) × (crossings.new ≡ crossings.old) }
    ensures own_plan { (wants_of wants).plan ≡ false → Promised job.now (take result answer.new) }
    ensures given_plan { (wants_of wants).plan ≡ true → PromisedWith job.now plan.now (take result answer.new) }
    ensures crossings_on_sheet { CrossingsOnSheet job.now (told_with (wants_of wants).plan job.now plan.now) (take result answer.new) }
    ensures reads_back { (wants_of wants).page ≡ true → PageReadsBack job.now (take result answer.new) page.new }
    ensures listed { (wants_of wants).crossings ≡ true → Demand7 job.now (told_with (wants_of wants).plan job.now plan.now) (take result answer.new) crossings.new }
{
    stage::stage_sheet(wants, job, plan, answer, page, crossings)
}

// The answer alone: `stage::stage`.
#[unsafe(no_mangle)]
pub extern "C" fn stage(job: &[u8], answer: &mut [u8]) -> usize
    ensures buffer { answer.new ≡ stage_of job.now answer.old }
    ensures count { result ≡ length (written job.now (length answer.old)) }
    ensures in_turn { answer.new ≡ sets answer.old 0 (in_turn job.now (length answer.old)) }
    ensures demand { Demand3 job.now (take result answer.new) }
    ensures in_answer { Demand3InAnswer job.now (take result answer.new) }
    ensures on_grid { OnGrid job.now (take result answer.new) }
    ensures in_answer_on_grid { Demand3OnGrid job.now (take result answer.new) }
    ensures crossings_on_sheet { CrossingsOnSheet job.now (told job.now) (take result answer.new) }
{
    stage::stage(job, answer)
}

// A job's plan: `stage::stage_plan`.
#[unsafe(no_mangle)]
pub extern "C" fn stage_plan(job: &[u8], plan: &mut [u8]) -> usize
    ensures buffer { plan.new ≡ planner_of job.now plan.old }
    ensures count { result ≡ length (plan_written job.now (length plan.old)) }
    ensures there { (result ≤ plan_room) × (plan_room ≤ length plan.old → take result plan.new ≡ plan_written job.now plan_room) }
{
    stage::stage_plan(job, plan)
}

// The answer of a job drawn from a plan: `stage::stage_draw`.
#[unsafe(no_mangle)]
pub extern "C" fn stage_draw(job: &[u8], plan: &[u8], answer: &mut [u8]) -> usize
    ensures buffer { answer.new ≡ draw_of job.now plan.now answer.old }
    ensures count { result ≡ length (draw_written job.now plan.now (length answer.old)) }
    ensures demand { Demand3From job.now plan.now (take result answer.new) }
    ensures in_answer { Demand3InAnswerFrom job.now plan.now (take result answer.new) }
    ensures on_grid { OnGridFrom job.now plan.now (take result answer.new) }
    ensures in_answer_on_grid { Demand3OnGridFrom job.now plan.now (take result answer.new) }
    ensures crossings_on_sheet { CrossingsOnSheet job.now (draw_told job.now plan.now) (take result answer.new) }
{
    stage::stage_draw(job, plan, answer)
}
