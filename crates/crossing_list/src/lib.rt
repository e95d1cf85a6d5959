// F-7's list as bytes: a u16 count and then the entries, in order.
//
// An entry is the point as two f64, the bundle id and the edge id as u32: 24 bytes. With at most
// 1,024 entries the list has at most 24,578 bytes. The rows are those that crate crossing_walk kept.

#![tactic(auto)]

ghost use Rattle.std.specs.Prelude.{◌≡◌, ◌+◌, ◌*◌, ◌≤◌, length};
ghost use Rattle.std.proofs.lemmas.List.Edits.{sets};
ghost use Rattle.answer.specs.Answer.{all_bytes};
ghost use Rattle.sorting.specs.Sort.{sorted};
ghost use Rattle.limits.specs.Limits.{max_crossings, crossing_bytes, crossings_room};
ghost use Rattle.crossing_bytes.specs.RowBytes.{row_bytes, rows_bytes, row_key};

use crossing_rows::Row;
use limits::{CROSSING_BYTES, MAX_CROSSINGS};

fn put_row(out: &mut [u8], at: usize, row: &Row)
    requires { at + crossing_bytes ≤ length out.old }
    ensures { out.new ≡ sets out.old at (row_bytes row.now) }
{
    answer::put_point(out, at, row.place);
    answer::put_id(out, at + 16, row.bundle);
    answer::put_id(out, at + 20, row.edge);
}

// The entries, behind the count.
#[tactic(auto, using(crossing_bytes::proofs::Laws::row_next, crossing_bytes::proofs::Laws::row_end))]
fn put_rows(out: &mut [u8], rows: &[Row])
    requires { 2 + crossing_bytes * length rows.now ≤ length out.old }
    ensures { out.new ≡ sets out.old 2 (all_bytes row_bytes rows.now) }
{
    let mut at = 2;
    for row in rows {
        put_row(out, at, row);
        at += CROSSING_BYTES;
    }
}

// out is a part of the caller's buffer, which C lends with its length: that it has room is asked.

#[tactic(auto, using(crossing_bytes::proofs::Laws::list_joined, std::proofs::lemmas::Grind::common_steps))]
fn put_list(out: &mut [u8], rows: &[Row])
    requires { (length rows.now ≤ max_crossings) × (crossings_room ≤ length out.old) }
    ensures { out.new ≡ sets out.old 0 (rows_bytes rows.now) }
{
    answer::put_count(out, 0, rows.len());
    put_rows(out, rows);
}

// The rows, sorted and written. A copy is sorted: the caller's rows are lent, and stay as they are.
pub fn put_crossings(rows: &[Row], out: &mut [u8])
    requires { (length rows.now ≤ max_crossings) × (crossings_room ≤ length out.old) }
    ensures { out.new ≡ sets out.old 0 (rows_bytes (sorted row_key rows.now)) }
{
    let mut room = [Row::default(); MAX_CROSSINGS];
    let mut spare = [Row::default(); MAX_CROSSINGS];
    let own = &mut room[..rows.len()];
    slices::copy(own, rows);
    place_sort::sort(own, &mut spare[..]);
    put_list(out, own);
}
