// A table with room for a fixed number of rows, which lie in the value itself: no heap is asked for. The kit's
// ArrayVec is the like and is no Copy, which these tables are.

#![tactic(auto)]

ghost use Rattle.std.specs.Prelude.{◌≡◌, ◌+◌, ◌-◌, ◌<◌, ◌≤◌, ◌==◌, ◌↔◌, [], ◌∷◌, ◌++◌, length, take, IsSome, IfNone, OnSome, slice_get};
ghost use Rattle.std.specs.Option.{option_to_list};
ghost use Rattle.table.specs.Table.{table_len};

use std::marker::Model;

#[derive(Clone, Copy, Drop)]
pub struct Table<T, const N: usize> {
    rows: [T; N],
    count: usize,
}

impl<T, const N: usize> Model for Table<T, N> {
    ghost use Rattle.std.specs.Prelude.{◌≡◌, ◌≤◌, ◌++◌, length, take, drop};
    ghost use Rattle.std.proofs.Common.{arith, take-append-drop, length-take-le};
    ghost use Rattle.table.specs.Table.{Table as Items, table_code};

    ghost Value = { Items T };

    ghost coded = { table_code T.code };

    ghost view = { λ v. record { items = take v.count v.rows; spare = drop v.count v.rows } };

    ghost invariant = { λ v. (v.count ≤ N) × (length v.rows ≡ N) };

    ghost inverse = { λ v. record { rows = v.items ++ v.spare; count = length v.items } };

    ghost inverse_ok = { λ v h i. record {
      rows = take-append-drop v.count v.rows i;
      count = length-take-le v.count v.rows (omega (arith, h.0, h.1)) i;
    } };
}

impl<T: Copy + Default, const N: usize> Table<T, N> {
    // A table without rows.
    pub fn new() -> Self
        ensures { result.items ≡ [] }
    {
        Table {
            rows: [T::default(); N],
            count: 0,
        }
    }

    // A table of these rows. There must be room.
    pub fn of(rows: &[T]) -> Self
        requires { length rows.now ≤ N }
        ensures { result.items ≡ rows.now }
    {
        let mut all = [T::default(); N];
        slices::copy(&mut all[..rows.len()], rows);
        Table {
            rows: all,
            count: rows.len(),
        }
    }
}

impl<T: Copy, const N: usize> Table<T, N> {
    // How many rows it has.
    #[inline]
    pub fn len(&self) -> usize
        ensures value { result ≡ table_len self.now }
        ensures fits { result ≤ N }
    {
        self.count
    }

    // Whether it has no row.
    #[inline]
    pub fn is_empty(&self) -> bool
        ensures { result ≡ (table_len self.now == 0) }
    {
        self.count == 0
    }

    // The rows that it has.
    #[inline]
    pub fn as_slice(&self) -> &[T]
        ensures value { result.now ≡ self.now.items }
        ensures fits { length result.now ≤ N }
    {
        &self.rows[..self.count]
    }

    // One row more. There must be room.
    #[inline]
    pub fn push(&mut self, row: T)
        requires { table_len self.old < N }
        ensures items { self.new.items ≡ self.old.items ++ row ∷ [] }
        ensures len { table_len self.new ≡ table_len self.old + 1 }
    {
        self.rows[self.count] = row;
        self.count += 1;
    }

    // Takes the last row away, if there is one.
    #[inline]
    pub fn pop(&mut self) -> Option<T>
        ensures items { self.old.items ≡ self.new.items ++ option_to_list result }
        ensures variant { IsSome result ↔ (0 < table_len self.old) }
        ensures len { OnSome result (table_len self.new + 1 ≡ table_len self.old) }
        ensures rest { self.new.items ≡ take (table_len self.old - 1) self.old.items }
        ensures value { result ≡ slice_get self.old.items (table_len self.old - 1) }
        ensures empty { IfNone result (self.new ≡ self.old) }
    {
        if self.count == 0 {
            return None;
        }
        self.count -= 1;
        Some(self.rows[self.count])
    }
}
