// One row of a buffer, of whichever kind: what its bytes mean is tested, and written to a row of its own, which must then have the same bytes.
ghost use Rattle.std.specs.Prelude.{◌≡◌, ℕ, Bool, List, not, ◌+◌, ◌≤◌, length, ◌&&◌};
ghost use Rattle.rows.specs.Bytes.{placed};
ghost use Rattle.good.specs.Rows.{held};

// A kind of row that is N bytes wide.
pub(crate) trait Row<const N: usize>: Copy {
    // What `read`, `is_good` and `put` do: what is read from a place on, its test, and its bytes.
    ghost row_at: { List ℕ → ℕ → Self };

    ghost tested: { ℕ → Self → Bool };

    ghost bytes: { Self → List ℕ };

    // Whether the row from a place on is good, as the document has it.
    ghost good: { List ℕ → ℕ → ℕ → Bool };

    fn read(w: &[u8], at: usize) -> Self
        ensures { result ≡ row_at w.now at };

    // `s` is the relay whose row it is; a row that is no relay's does not look at it.
    fn is_good(self, s: u8) -> bool
        ensures { result ≡ tested s self };

    fn put(&self, row: &mut [u8])
        ensures { row.new ≡ placed row.old 0 (bytes self.now) };

    // What each `impl` must prove: the width, and that the row is good exactly when what is read passes and its bytes are the row's.
    ghost wide: { (x : Self) → length (bytes x) ≡ N };

    ghost means: { (l : List ℕ) (s o : ℕ) → good l s o ≡ (tested s (row_at l o) && held l o (bytes (row_at l o))) };
}

// A kind of row that stands in a table under a name: the row's first bytes, a view or a pair of views.
pub(crate) trait Named<const N: usize>: Row<N> {
    // Whether the rows from two places on have different names.
    ghost other: { List ℕ → ℕ → ℕ → Bool };

    fn same_name(w: &[u8], a: usize, b: usize) -> bool
        requires { (a + N ≤ length w.now) × (b + N ≤ length w.now) }
        ensures { not result ≡ other w.now a b };
}

// The bytes of `x` stand in `w` from `at` on.
fn is_written<T: Row<N>, const N: usize>(x: &T, w: &[u8], at: usize) -> bool
    requires { at + N ≤ length w.now }
    ensures { result ≡ held w.now at (T.bytes x.now) }
{
    let mut row = [0u8; N];
    x.put(&mut row);
    w[at..at + N] == row[..]
}

pub(crate) fn good_row<T: Row<N>, const N: usize>(w: &[u8], s: u8, at: usize) -> bool
    requires { at + N ≤ length w.now }
    ensures { result ≡ T.good w.now s at }
{
    let x = T::read(w, at);
    x.is_good(s) && is_written::<T, N>(&x, w, at)
}
