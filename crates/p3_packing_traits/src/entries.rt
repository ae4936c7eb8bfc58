//! An entry of a row of rows.
ghost use Rattle.std.specs.Prelude.{◌≡◌, ◌<◌, length, get_or};
ghost use Rattle.p3_packing_traits.specs.Columns.{column};

/// Entry c of row l.
#[inline]
pub fn entry_at<V: Copy, const N: usize>(rows: &[[V; N]], l: usize, c: usize) -> V
    requires row { l < length rows.now }
    requires index { c < N }
    ensures { (d e : V) → result ≡ get_or (column d c rows.now) l e }
{
    let row = &rows[l];
    row[c]
}
