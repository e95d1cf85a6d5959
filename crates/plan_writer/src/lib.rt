// A plan's bytes, written (F-5): what a plan's rows come to at the front of a buffer.

#![tactic(auto)]

ghost use Rattle.std.specs.Prelude.{◌≡◌, ◌+◌, ◌*◌, ◌≤◌, length, map};
ghost use Rattle.std.proofs.lemmas.List.Edits.{sets};
ghost use Rattle.limits.specs.Limits.{max_bundles, plan_room};
ghost use Rattle.answer.specs.Answer.{all_bytes};
ghost use Rattle.plan.specs.Prepared.{x_of};
ghost use Rattle.plan_bytes.specs.PlanBytes.{entry_bytes, plan_bytes};
ghost use Rattle.plan_writer.specs.Rows.{row_bytes};

use plan::{Bound, Planned};
use search::TapVisits;

// One entry; answers where the next one stands.
fn put_entry(out: &mut [u8], at: usize, x: Bound) -> usize
    requires { at + 9 ≤ length out.old }
    ensures bytes { out.new ≡ sets out.old at (entry_bytes x) }
    ensures place { result ≡ at + length (entry_bytes x) }
{
    match x {
        Bound::None => {
            wire::put8(out, at, 0);
            at + 1
        }
        Bound::At(y) => {
            wire::put8(out, at, 1);
            wire::put_number(out, at + 1, y);
            at + 9
        }
    }
}

// The entries of some bundles.
fn put_entries(out: &mut [u8], from: usize, rows: &[Planned]) -> usize
    requires { from + 9 * length rows.now ≤ length out.old }
    ensures bytes { out.new ≡ sets out.old from (all_bytes row_bytes rows.now) }
    ensures place { result ≡ from + length (all_bytes row_bytes rows.now) }
{
    let mut at = from;
    for row in rows {
        at = put_entry(out, at, row.x);
    }
    at
}

// The plan of some bundles and the visits left, at the front of a buffer; answers how many bytes it has.
pub fn write_plan(out: &mut [u8], rows: &[Planned], left: TapVisits) -> usize
    requires { (length rows.now ≤ max_bundles) × (plan_room ≤ length out.old) }
    ensures bytes { out.new ≡ sets out.old 0 (plan_bytes (record { xs = map x_of rows.now; left = left.0 })) }
    ensures place { result ≡ length (plan_bytes (record { xs = map x_of rows.now; left = left.0 })) }
{
    wire::put8(out, 4, 1);
    wire::put32(out, 5, left.0);
    let end = put_entries(out, 9, rows);
    wire::put32(out, 0, (end - 4) as u32);
    end
}
