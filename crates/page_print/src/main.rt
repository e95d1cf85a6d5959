// Prints lines of the bundle page for chosen ids and numbers of 128ths, and the page of three bundles.
// The file stdout has what Python's exact decimals print for the same numbers:
// f"{id:>10} {mark} {Decimal(x)/128:>20.7f} .."; three lines have the id in 20 columns.

#![tactic(auto)]

ghost use Rattle.std.specs.Prelude.{◌<◌, ◌≤◌};
ghost use Rattle.bundle_page.specs.PageTables.{OnPage, Printable};

use board::DrawnBundle;
use geometry::{Point, Segment};
use limits::PAGE_ROOM;
use page_lines::Entry;

fn show(w: usize, id: u64, interior: bool, x: u64, low: u64, high: u64)
    requires { w ≤ 20 }
{
    let mut line = [0u8; 86];
    let entry = Entry {
        id,
        interior,
        x,
        low,
        high,
    };
    page_lines::put_line(&mut line[..], 0, w, entry);
    io::write_all(1, &line[..66 + w]);
}

// A bundle with an upright collector.
fn bundle(id: u64, interior: bool, x: f64, start: f64, end: f64) -> DrawnBundle
    requires { OnPage x × OnPage start × OnPage end }
    ensures { Printable result }
{
    let a = Point { x, y: start };
    let b = Point { x, y: end };
    let collector = Segment { start: a, end: b };
    DrawnBundle {
        id,
        interior,
        collector,
        spine: collector,
        first: 0,
        count: 0,
    }
}

// The page of three bundles, the first with its larger y at the start.
fn show_page() {
    let first = bundle(7, false, 1.5, 3.0, 2.25);
    let second = bundle(4294967295, true, 8589934591.9921875, 0.0, 0.0078125);
    let third = bundle(0, false, 0.0, 4294967296.0, 4294967296.0078125);
    let mut page = [0u8; PAGE_ROOM];
    let n = page_writer::put_page(&mut page[..], &[first, second, third]);
    io::write_all(1, &page[..n]);
}

fn main() {
    show(10, 0, true, 0, 0, 0);
    show(10, 1, false, 1, 2, 3);
    show(10, 4294967295, true, 127, 128, 129);
    show(10, 9, true, 64, 1279, 1280);
    show(10, 10, false, 12800, 12799, 12799);
    show(10, 999999999, false, 1099511627775, 549755813888, 134217728);
    show(10, 1000000000, true, 897, 960, 1023);
    show(10, 4294967295, false, 0, 1, 1099511627775);
    show(10, 42, true, 12803, 128005, 1580246861);
    show(10, 1013818839, true, 1053968044713, 184, 1);
    show(10, 3942586889, false, 132135367256, 23609, 90525);
    show(10, 3551386827, true, 426368910046, 1269, 390482);
    show(10, 2602114036, false, 547633901513, 2026, 1202580518);
    show(10, 1289545638, false, 686689323769, 5133023523, 154728115);
    show(10, 1851315658, true, 568246127416, 1, 7);
    show(10, 1472500625, false, 146868869825, 54403979, 296680058);
    show(10, 789001160, true, 706903378783, 14274470775, 7);
    show(10, 3702687224, true, 390561050414, 481316, 0);
    show(20, 18446744073709551615, true, 1099511627775, 0, 8589934592);
    show(20, 0, false, 5, 6, 7);
    show(
        20,
        10000000000000000000,
        true,
        1279999999999,
        127999999999999,
        128000000000,
    );
    show_page();
}
