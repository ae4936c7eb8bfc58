//! Columns of rows as packings, and back.
ghost use Rattle.std.specs.Prelude.{◌≡◌, ◌<◌, ℕ, length, get_or, slice_get, Some};
ghost use Rattle.p3_packing_traits.specs.Columns.{column};

use crate::columnwise::AsRow;
use crate::entries::entry_at;
use p3_field_traits::packed_traits::PackedValue;

/// The packing whose lane l is entry c of row l.
#[inline]
fn packed_column<P: PackedValue, const N: usize>(rows: &[[P::Value; N]], c: usize) -> P
    requires index { c < N }
    requires width { length rows.now ≡ P.WIDTH }
    ensures { (d : P.Value) → P.lanes result ≡ column d c rows.now }
{
    P::from_fn(
        |l: usize| -> P::Value
            requires row { l < length rows.now }
            requires index { c < N }
            ensures entry { (d e : P.Value) → result ≡ get_or (column d c rows.entry.now) l e }
            ensures kept { rows.exit ≡ rows.entry }
        { entry_at(rows, l, c) },
    )
}

/// The packings of the columns: lane l of packing c is entry c of row l. There are as many rows as a
/// packing has lanes. Upstream's `pack_columns`.
#[inline]
pub fn pack_columns<P: PackedValue, const N: usize>(rows: &[[P::Value; N]]) -> [P; N]
    requires { length rows.now ≡ P.WIDTH }
    ensures { (p : P) (d : P.Value) (c : ℕ) → c < N → P.lanes (get_or result c p) ≡ column d c rows.now }
{
    std::array::from_fn(
        |c: usize| -> P
            requires index { c < N }
            requires width { length rows.now ≡ P.WIDTH }
            ensures lanes { (d : P.Value) → P.lanes result ≡ column d c rows.entry.now }
            ensures kept { rows.exit ≡ rows.entry }
        { packed_column::<P, N>(rows, c) },
    )
}

/// The row whose entry c is lane l of packing c.
#[inline]
pub(crate) fn unpacked_row<P: PackedValue, const N: usize>(
    packed: &[P; N],
    l: usize,
) -> [P::Value; N]
    requires { l < P.WIDTH }
    ensures { (p : P) (d : P.Value) (c : ℕ) → c < N → slice_get (P.lanes (get_or packed.now c p)) l ≡ Some (get_or result c d) }
{
    std::array::from_fn(
        |c: usize| -> P::Value
            requires index { c < N }
            requires lane { l < P.WIDTH }
            ensures lane_read { (p : P) → slice_get (P.lanes (get_or packed.entry.now c p)) l ≡ Some result }
            ensures kept { packed.exit ≡ packed.entry }
        { packed[c].extract(l) },
    )
}

/// Writes the rows whose columns are the packings: entry c of row l is lane l of packing c. There are
/// as many rows as a packing has lanes. Upstream's `unpack_into`.
#[inline]
pub fn unpack_into<P: PackedValue, const N: usize>(packed: &[P; N], rows: &mut [[P::Value; N]])
    requires { length rows.old ≡ P.WIDTH }
    ensures { (p : P) (d : P.Value) (c l : ℕ) → c < N → l < P.WIDTH → slice_get (P.lanes (get_or packed.now c p)) l ≡ Some (get_or (column d c rows.new) l d) }
{
    for l in 0..rows.len() {
        rows[l] = unpacked_row::<P, N>(packed, l);
    }
}

/// The packing whose lane l is entry c of what the closure answers at l.
#[inline]
fn packed_answers<P, Row, R, const N: usize>(row_fn: &R, c: usize) -> P
where
    P: PackedValue,
    Row: AsRow<P::Value, N> + Drop,
    R: Fn(usize) -> Row,
    requires index { c < N }
    requires callable { (l : ℕ) → l < P.WIDTH → R.pre row_fn.now l }
    ensures { (d : P.Value) (l : ℕ) → l < P.WIDTH → (row : Row) × R.post row_fn.now l row × (slice_get (P.lanes result) l ≡ Some (get_or (Row.entries row) c d)) }
{
    P::from_fn(
        |l: usize| -> P::Value
            requires callable { R.pre row_fn.now l }
            requires index { c < N }
            ensures entry { (d : P.Value) → (row : Row) × R.post row_fn.entry.now l row × (result ≡ get_or (Row.entries row) c d) }
            ensures kept { row_fn.exit ≡ row_fn.entry }
        {
            let row = row_fn(l);
            let entries = row.as_row();
            entries[c]
        },
    )
}

/// The packings of the columns of what the closure answers.
#[inline]
fn packed_columns<P, Row, R, const N: usize>(row_fn: &R) -> [P; N]
where
    P: PackedValue,
    Row: AsRow<P::Value, N> + Drop,
    R: Fn(usize) -> Row,
    requires { (l : ℕ) → l < P.WIDTH → R.pre row_fn.now l }
    ensures { (p : P) (d : P.Value) (c l : ℕ) → c < N → l < P.WIDTH → (row : Row) × R.post row_fn.now l row × (slice_get (P.lanes (get_or result c p)) l ≡ Some (get_or (Row.entries row) c d)) }
{
    std::array::from_fn(
        |c: usize| -> P
            requires index { c < N }
            requires callable { (l : ℕ) → l < P.WIDTH → R.pre row_fn.now l }
            ensures lanes { (d : P.Value) (l : ℕ) → l < P.WIDTH → (row : Row) × R.post row_fn.entry.now l row × (slice_get (P.lanes result) l ≡ Some (get_or (Row.entries row) c d)) }
            ensures kept { row_fn.exit ≡ row_fn.entry }
        { packed_answers::<P, Row, R, N>(row_fn, c) },
    )
}

/// The packings of the columns of what the closure answers, which lends itself as a row: lane l of
/// packing c is entry c of an answer at l. The closure may be called at every lane. Upstream's
/// `pack_columns_fn`.
#[inline]
pub fn pack_columns_fn<P, Row, R, const N: usize>(row_fn: R) -> [P; N]
where
    P: PackedValue,
    Row: AsRow<P::Value, N> + Drop,
    R: Fn(usize) -> Row + Drop,
    requires { (l : ℕ) → l < P.WIDTH → R.pre row_fn l }
    ensures { (p : P) (d : P.Value) (c l : ℕ) → c < N → l < P.WIDTH → (row : Row) × R.post row_fn l row × (slice_get (P.lanes (get_or result c p)) l ≡ Some (get_or (Row.entries row) c d)) }
{
    packed_columns::<P, Row, R, N>(&row_fn)
}
