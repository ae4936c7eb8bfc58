//! The points of a coset, and tables of those of small ones.
ghost use Rattle.std.specs.Prelude.{◌≡◌, ◌≤◌, ◌-◌, ◌^◌, ℕ, length, get_or};
ghost use Rattle.poly_eval.specs.PointTables.{IsPointTable};

use p3_field::TwoAdicField;

/// The size of a table.
pub(crate) const TABLE: usize = 64;

/// Its logarithm to base two.
const LOG_TABLE: usize = 6;

/// The points `shift`, `shift * generator`, .. of a coset, two to the log size of them.
#[derive(Clone, Copy)]
pub(crate) struct Points<F> {
    pub(crate) shift: F,
    pub(crate) generator: F,
    pub(crate) log_size: usize,
}

impl<F: TwoAdicField> Points<F> {
    /// The squares of the points: half as many.
    pub(crate) fn squares(self) -> Self
        requires within { self.log_size ≤ F.TWO_ADICITY }
        requires generator { self.generator ≡ F.two_adic self.log_size }
        requires some { 1 ≤ self.log_size }
        ensures shift { result.shift ≡ F.ops.mul self.shift self.shift }
        ensures generator { result.generator ≡ F.two_adic result.log_size }
        ensures log_size { result.log_size ≡ self.log_size - 1 }
    {
        Points {
            shift: self.shift.square(),
            generator: self.generator.square(),
            log_size: self.log_size - 1,
        }
    }

    /// Half of how many points there are.
    fn half_size(self) -> usize
        requires some { 1 ≤ self.log_size }
        requires few { self.log_size ≤ 64 }
        ensures { result ≡ 2 ^ (self.log_size - 1) }
    {
        1 << (self.log_size - 1)
    }

    /// Writes the first half of at most 64 points to the table from as many entries on, and before them those of their
    /// squares, and so on.
    fn write_few(self, table: &mut [F])
        requires few { self.log_size ≤ 6 }
        requires within { self.log_size ≤ F.TWO_ADICITY }
        requires generator { self.generator ≡ F.two_adic self.log_size }
        requires table { length table.old ≡ 64 }
        ensures length { length table.new ≡ 64 }
        ensures points { IsPointTable F.ops F.two_adic self.shift self.log_size table.new }
        ensures kept { (k : ℕ) → 2 ^ self.log_size ≤ k → get_or table.new k F.ops.zero ≡ get_or table.old k F.ops.zero }
    {
        if self.log_size > 0 {
            let half = self.half_size();
            let points = self.generator.shifted_powers(self.shift);
            points.fill(&mut table[half..2 * half]);
            self.squares().write_few(table);
        }
    }

    /// Writes the table of a coset of 2^k points: the first half of the points goes to the indices from 2^(k - 1) on.
    /// The points' squares are a coset of half as many points, and so on; the table has those cosets that have at most
    /// 64 points.
    fn write_table(self, table: &mut [F])
        requires within { self.log_size ≤ F.TWO_ADICITY }
        requires generator { self.generator ≡ F.two_adic self.log_size }
        requires table { length table.old ≡ 64 }
        ensures length { length table.new ≡ 64 }
        ensures points { IsPointTable F.ops F.two_adic self.shift self.log_size table.new }
    {
        if self.log_size <= LOG_TABLE {
            self.write_few(table);
        } else {
            self.squares().write_table(table);
        }
    }

    /// That table.
    pub(crate) fn table(self) -> [F; TABLE]
        requires within { self.log_size ≤ F.TWO_ADICITY }
        requires generator { self.generator ≡ F.two_adic self.log_size }
        ensures { IsPointTable F.ops F.two_adic self.shift self.log_size result }
    {
        let mut table = [F::zero(); TABLE];
        self.write_table(&mut table);
        table
    }
}
