// Writing the bundle page of an answer: one line per bundle. What is right stands in
// bundle_page/specs/AnswerPage.antt.

#![tactic(auto)]

ghost use Rattle.std.specs.Prelude.{◌≡◌, ◌+◌, ◌*◌, ◌<◌, ◌≤◌, length};
ghost use Rattle.std.proofs.lemmas.List.Edits.{sets};
ghost use Rattle.limits.specs.Limits.{max_bundles, id_columns, page_room};
ghost use Rattle.bundle_page.specs.Parts.{parts_of};
ghost use Rattle.bundle_page.specs.PageTables.{OnPage, bundle_line, page_bytes, Printable, Printables};

use board::DrawnBundle;
use limits::ID_COLUMNS;
use page_lines::Entry;

// How many 128ths a number of the page is.
pub fn parts_of(x: f64) -> u64
    requires { OnPage x }
    ensures { result ≡ parts_of x }
{
    std::num::truncating_f64_to_u64(x * 128.0)
}

// A bundle's line, its id in w columns; answers the place after it.
fn put_entry(out: &mut [u8], at: usize, w: usize, b: DrawnBundle) -> usize
    requires { Printable b × (at + (66 + w) ≤ length out.old) }
    ensures bytes { out.new ≡ sets out.old at (bundle_line w b) }
    ensures place { result ≡ at + (66 + w) }
{
    let start = b.collector.start;
    let end = b.collector.end;
    let x = parts_of(start.x);
    let low = parts_of(binary64::min(start.y, end.y));
    let high = parts_of(binary64::max(start.y, end.y));
    let entry = Entry {
        id: b.id,
        interior: b.interior,
        x,
        low,
        high,
    };
    page_lines::put_line(out, at, w, entry);
    at + (66 + w)
}

// The page of the drawn bundles, at the front of a buffer; answers how many bytes it has. At most 32: a page
// has room for so many.
pub fn put_page(out: &mut [u8], drawn: &[DrawnBundle]) -> usize
    requires { (length drawn.now ≤ max_bundles) × Printables (length drawn.now) drawn.now × (page_room ≤ length out.old) }
    ensures bytes { out.new ≡ sets out.old 0 (page_bytes id_columns drawn.now) }
    ensures place { result ≡ length (page_bytes id_columns drawn.now) }
{
    let mut at: usize = 0;
    for b in drawn {
        at = put_entry(out, at, ID_COLUMNS, *b);
    }
    at
}
