// F-7's list of a finished sheet, before the last shift: counted, then written.

#![tactic(auto)]

ghost use Rattle.std.specs.Prelude.{◌≡◌, ◌≤◌, ltb, length, is_err, IfErr};
ghost use Rattle.std.proofs.lemmas.List.Edits.{sets};
ghost use Rattle.limits.specs.Limits.{max_edges, max_crossings, crossings_room};
ghost use Rattle.refusal.specs.declared.Refusal.TheVariants.{TooManyCrossings};
ghost use Rattle.crossing_rows.specs.Rows.{rows_met};
ghost use Rattle.crossing_bytes.specs.RowBytes.{written_rows};

use arrayvec::ArrayVec;
use board::{DrawnBundle, Edge};
use refusal::Refusal;
use route::PresentRoutes;

// The list is written where there are at most 1,024 crossings, unless another refusal is due; more are
// refused (19). The rows of the crossings are kept here, so that they are cleared only where the list is
// wanted. permitted is bit 1 of the job's flags. withheld says that the caller refuses the page (16) once
// 19 was looked for, and is no switch between two ways to work. A function of its own for its caller, whose frame
// stands below the turns' and the searches': the rows, 96 KB, stand beside those, and not on top of them.
#[inline(never)]
pub fn list_crossings(
    permitted: bool,
    withheld: bool,
    table: &[Edge],
    drawn: &[DrawnBundle],
    present: PresentRoutes,
    out: &mut [u8],
) -> Result<(), Refusal>
    requires table_le_max_edges { (length table.now ≤ max_edges) × (crossings_room ≤ length out.old) }
    requires counts_len { length present.counts.now ≡ length table.now }
    ensures too_many { is_err result ≡ ltb max_crossings (length (rows_met permitted table.now drawn.now present.entry.points.now present.entry.counts.now)) }
    ensures refusal { IfErr result (λ r. r ≡ TooManyCrossings) }
    ensures bytes { out.new ≡ sets out.old 0 (written_rows withheld (rows_met permitted table.now drawn.now present.entry.points.now present.entry.counts.now)) }
{
    let mut kept = ArrayVec::new();
    crossing_walk::sheet_crossings(permitted, table, drawn, present, &mut kept)?;
    let rows = kept.as_slice();
    if withheld {
        return Ok(());
    }
    crossing_list::put_crossings(rows, out);
    Ok(())
}
