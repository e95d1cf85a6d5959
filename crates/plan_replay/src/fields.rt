// Fields of a result.

use arrayvec::ArrayVec;
use plan::Bound;
use search::{Bounds, TapVisits};

// The bytes of the longest result, and more.
pub(crate) const OUT_ROOM: usize = 65536;

// A result, as far as it is written; no heap is asked for, so no Vec. A field that has no room is left out.
#[derive(Drop)]
pub(crate) struct Written {
    pub(crate) bytes: ArrayVec<u8, OUT_ROOM>,
}

impl Written {
    fn put(&mut self, bytes: &[u8]) {
        let _ = self.bytes.try_extend_from_slice(bytes);
    }

    // put_mark to put_number stay apart: the bytes of numbers of different types.
    pub(crate) fn put_mark(&mut self, x: u8) {
        self.put(&[x]);
    }

    pub(crate) fn put_count(&mut self, n: usize) {
        self.put(&((n % 65536) as u16).to_be_bytes());
    }

    pub(crate) fn put_visits(&mut self, v: TapVisits) {
        self.put(&v.0.to_be_bytes());
    }

    pub(crate) fn put_number(&mut self, x: f64) {
        self.put(&wire::bits_of(x).to_be_bytes());
    }

    // A tag, 0 or 1, and after 1 the number.
    pub(crate) fn put_bound(&mut self, b: Bound) {
        match b {
            Bound::None => self.put_mark(0),
            Bound::At(x) => {
                self.put_mark(1);
                self.put_number(x);
            }
        }
    }

    pub(crate) fn put_between(&mut self, b: Option<Bounds>) {
        match b {
            None => self.put_mark(0),
            Some(r) => {
                self.put_mark(1);
                self.put_number(r.minimum);
                self.put_number(r.desired);
                self.put_number(r.maximum);
            }
        }
    }
}
