//! Columns of rows of extension values as packings, and back.
ghost use Rattle.std.specs.Prelude.{◌≡◌, ◌<◌, ℕ, length, get_or, slice_get, Some};
ghost use Rattle.p3_packing_traits.specs.Columns.{column};

use crate::columnwise::AsRow;
use crate::entries::entry_at;
use crate::extension_lanes::ExtensionLanes;
use p3_ring::ring::PrimeCharacteristicRing;

/// The packing whose lane l is entry c of row l.
#[inline]
fn packed_ext_column<F, EF, PE, const N: usize>(rows: &[[EF; N]], c: usize) -> PE
where
    EF: PrimeCharacteristicRing,
    PE: ExtensionLanes<F, EF>,
    requires index { c < N }
    requires width { length rows.now ≡ PE.LANES }
    ensures { (d : EF) → PE.ext_lanes result ≡ column d c rows.now }
{
    PE::from_ext_fn(
        |l: usize| -> EF
            requires row { l < length rows.now }
            requires index { c < N }
            ensures entry { (d e : EF) → result ≡ get_or (column d c rows.entry.now) l e }
            ensures kept { rows.exit ≡ rows.entry }
        { entry_at(rows, l, c) },
    )
}

/// The packings of the columns: lane l of packing c is entry c of row l. There are as many rows as a
/// packing has lanes. Upstream's `pack_ext_columns`.
#[inline]
pub fn pack_ext_columns<F, EF, PE, const N: usize>(rows: &[[EF; N]]) -> [PE; N]
where
    EF: PrimeCharacteristicRing,
    PE: ExtensionLanes<F, EF>,
    requires { length rows.now ≡ PE.LANES }
    ensures { (p : PE) (d : EF) (c : ℕ) → c < N → PE.ext_lanes (get_or result c p) ≡ column d c rows.now }
{
    std::array::from_fn(
        |c: usize| -> PE
            requires index { c < N }
            requires width { length rows.now ≡ PE.LANES }
            ensures lanes { (d : EF) → PE.ext_lanes result ≡ column d c rows.entry.now }
            ensures kept { rows.exit ≡ rows.entry }
        { packed_ext_column::<F, EF, PE, N>(rows, c) },
    )
}

/// The row whose entry c is lane l of packing c.
#[inline]
pub(crate) fn unpacked_ext_row<F, EF, PE, const N: usize>(packed: &[PE; N], l: usize) -> [EF; N]
where
    EF: PrimeCharacteristicRing,
    PE: ExtensionLanes<F, EF>,
    requires { l < PE.LANES }
    ensures { (p : PE) (d : EF) (c : ℕ) → c < N → slice_get (PE.ext_lanes (get_or packed.now c p)) l ≡ Some (get_or result c d) }
{
    std::array::from_fn(
        |c: usize| -> EF
            requires index { c < N }
            requires lane { l < PE.LANES }
            ensures lane_read { (p : PE) → slice_get (PE.ext_lanes (get_or packed.entry.now c p)) l ≡ Some result }
            ensures kept { packed.exit ≡ packed.entry }
        { ExtensionLanes::<F, EF>::extract(&packed[c], l) },
    )
}

/// Writes the rows whose columns are the packings: entry c of row l is lane l of packing c. There are
/// as many rows as a packing has lanes. Upstream's `unpack_ext_into`.
#[inline]
pub fn unpack_ext_into<F, EF, PE, const N: usize>(packed: &[PE; N], rows: &mut [[EF; N]])
where
    EF: PrimeCharacteristicRing,
    PE: ExtensionLanes<F, EF>,
    requires { length rows.old ≡ PE.LANES }
    ensures { (p : PE) (d : EF) (c l : ℕ) → c < N → l < PE.LANES → slice_get (PE.ext_lanes (get_or packed.now c p)) l ≡ Some (get_or (column d c rows.new) l d) }
{
    for l in 0..rows.len() {
        rows[l] = unpacked_ext_row::<F, EF, PE, N>(packed, l);
    }
}

/// The packing whose lane l is entry c of what the closure answers at l.
#[inline]
fn packed_ext_answers<F, EF, PE, Row, R, const N: usize>(row_fn: &R, c: usize) -> PE
where
    EF: PrimeCharacteristicRing,
    PE: ExtensionLanes<F, EF>,
    Row: AsRow<EF, N> + Drop,
    R: Fn(usize) -> Row,
    requires index { c < N }
    requires callable { (l : ℕ) → l < PE.LANES → R.pre row_fn.now l }
    ensures { (d : EF) (l : ℕ) → l < PE.LANES → (row : Row) × R.post row_fn.now l row × (slice_get (PE.ext_lanes result) l ≡ Some (get_or (Row.entries row) c d)) }
{
    PE::from_ext_fn(
        |l: usize| -> EF
            requires callable { R.pre row_fn.now l }
            requires index { c < N }
            ensures entry { (d : EF) → (row : Row) × R.post row_fn.entry.now l row × (result ≡ get_or (Row.entries row) c d) }
            ensures kept { row_fn.exit ≡ row_fn.entry }
        {
            let row = row_fn(l);
            let entries = row.as_row();
            entries[c]
        },
    )
}

/// The packings of the columns of what the closure answers.
#[inline]
fn packed_ext_columns<F, EF, PE, Row, R, const N: usize>(row_fn: &R) -> [PE; N]
where
    EF: PrimeCharacteristicRing,
    PE: ExtensionLanes<F, EF>,
    Row: AsRow<EF, N> + Drop,
    R: Fn(usize) -> Row,
    requires { (l : ℕ) → l < PE.LANES → R.pre row_fn.now l }
    ensures { (p : PE) (d : EF) (c l : ℕ) → c < N → l < PE.LANES → (row : Row) × R.post row_fn.now l row × (slice_get (PE.ext_lanes (get_or result c p)) l ≡ Some (get_or (Row.entries row) c d)) }
{
    std::array::from_fn(
        |c: usize| -> PE
            requires index { c < N }
            requires callable { (l : ℕ) → l < PE.LANES → R.pre row_fn.now l }
            ensures lanes { (d : EF) (l : ℕ) → l < PE.LANES → (row : Row) × R.post row_fn.entry.now l row × (slice_get (PE.ext_lanes result) l ≡ Some (get_or (Row.entries row) c d)) }
            ensures kept { row_fn.exit ≡ row_fn.entry }
        { packed_ext_answers::<F, EF, PE, Row, R, N>(row_fn, c) },
    )
}

/// The packings of the columns of what the closure answers, which lends itself as a row: lane l of
/// packing c is entry c of an answer at l. The closure may be called at every lane. Upstream's
/// `pack_ext_columns_fn`.
#[inline]
pub fn pack_ext_columns_fn<F, EF, PE, Row, R, const N: usize>(row_fn: R) -> [PE; N]
where
    EF: PrimeCharacteristicRing,
    PE: ExtensionLanes<F, EF>,
    Row: AsRow<EF, N> + Drop,
    R: Fn(usize) -> Row + Drop,
    requires { (l : ℕ) → l < PE.LANES → R.pre row_fn l }
    ensures { (p : PE) (d : EF) (c l : ℕ) → c < N → l < PE.LANES → (row : Row) × R.post row_fn l row × (slice_get (PE.ext_lanes (get_or result c p)) l ≡ Some (get_or (Row.entries row) c d)) }
{
    packed_ext_columns::<F, EF, PE, Row, R, N>(&row_fn)
}
