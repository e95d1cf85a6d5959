// The bundle page: decimal text in fixed columns. What is right stands in page_text/specs/Listing.antt.
// Every write is a run of bytes stored from a place on, and nothing else changes. The digits are the
// kit's, of its crate itoa; the columns are laid out by hand, since a clause knows the bytes of `write!`
// only to a String, and there is no heap here.

#![tactic(auto)]

ghost use Rattle.std.specs.Prelude.{◌≡◌, ◌∷◌, [], ◌+◌, ◌<◌, ◌≤◌, length};
ghost use Rattle.std.proofs.lemmas.List.Edits.{sets};
ghost use Rattle.page_text.specs.Listing.{number_field, letter, letter_field, cell, entry_line};
ghost use Rattle.page_lines.specs.Padded.{padded};

use itoa::Buffer;

// A bundle on the page; its numbers in 128ths.
#[derive(Clone, Copy)]
pub struct Entry {
    pub id: u64,
    pub interior: bool,
    pub x: u64,
    pub low: u64,
    pub high: u64,
}

fn put_byte(out: &mut [u8], at: usize, b: u8)
    requires { at < length out.old }
    ensures { out.new ≡ sets out.old at (b ∷ []) }
{
    out[at] = b;
}

// A number right-aligned in w columns: its last w digits, and `fill` in front of the first.
fn put_right(out: &mut [u8], at: usize, w: usize, n: u64, fill: u8)
    requires { at + w ≤ length out.old }
    ensures { out.new ≡ sets out.old at (padded fill w n) }
{
    let mut buffer = Buffer::new();
    let text = buffer.format(n).as_bytes();
    let digits = &text[text.len().saturating_sub(w)..];
    let start = at + w - digits.len();
    out[at..start].fill(fill);
    slices::copy(&mut out[start..at + w], digits);
}

// k / 128 in 20 columns.
#[tactic(auto, using(crate::proofs::DigitStores::field_padded))]
fn put_field(out: &mut [u8], at: usize, k: u64)
    requires { at + 20 ≤ length out.old }
    ensures { out.new ≡ sets out.old at (number_field k) }
{
    put_right(out, at, 12, k / 128, b' ');
    put_byte(out, at + 12, b'.');
    put_right(out, at + 13, 7, k % 128 * 78125, b'0');
}

fn put_letter(out: &mut [u8], at: usize, interior: bool)
    requires { at + 3 ≤ length out.old }
    ensures { out.new ≡ sets out.old at (letter_field interior) }
{
    put_byte(out, at, b' ');
    put_byte(out, at + 1, if interior { b'I' } else { b'R' });
    put_byte(out, at + 2, b' ');
}

#[tactic(auto, using(crate::specs::LineStores::cell_joined))]
fn put_cell(out: &mut [u8], at: usize, k: u64, end: u8)
    requires { at + 21 ≤ length out.old }
    ensures { out.new ≡ sets out.old at (cell k end) }
{
    put_field(out, at, k);
    put_byte(out, at + 20, end);
}

// A line with its id in w columns.
pub fn put_line(out: &mut [u8], at: usize, w: usize, entry: Entry)
    requires { at + (66 + w) ≤ length out.old }
    ensures { out.new ≡ sets out.old at (entry_line w (record { id = entry.id; interior = entry.interior; x = entry.x; low = entry.low; high = entry.high })) }
{
    put_right(out, at, w, entry.id, b' ');
    put_letter(out, at + w, entry.interior);
    put_cell(out, at + (w + 3), entry.x, b' ');
    put_cell(out, at + (w + 24), entry.low, b' ');
    put_cell(out, at + (w + 45), entry.high, b'\n');
}
