//! Values side by side, in lanes: the traits of packings, for single values and for arrays.
ghost use Rattle.std.specs.Prelude.{◌≡◌, ◌<◌, ◌≤◌, ◌+◌, ◌*◌, ℕ, List, length, replicate, take, drop, slice_get, slice_set, slice_range, Some};
ghost use Rattle.std.specs.Array.{IsFromFnResult};
ghost use Rattle.p3_theory.specs.Bases.Coordinates.{CallableBelow};

/// A type with a value. What a vector's theorem reads past its end is this value, so that the type of
/// a vector asks nothing more of its parts. This project's own.
pub trait Inhabited: Copy {
    /// A value of the type.
    ghost inhabitant: { Self };
}

impl Inhabited for u8 {
    ghost inhabitant = { 0 };
}

impl Inhabited for u16 {
    ghost inhabitant = { 0 };
}

impl Inhabited for u32 {
    ghost inhabitant = { 0 };
}

impl Inhabited for u64 {
    ghost inhabitant = { 0 };
}

impl Inhabited for u128 {
    ghost inhabitant = { 0 };
}

/// A value that may stand in a lane of a packing. Upstream's `Packable`.
pub trait Packable: Default + Inhabited + PartialEq + Eq {}

impl Packable for u8 {}

impl Packable for u16 {}

impl Packable for u32 {}

impl Packable for u64 {}

impl Packable for u128 {}

/// Values side by side: a list of `WIDTH` lanes. Upstream's `PackedValue`; slices are read and
/// written by value, where upstream has views by pointers.
pub trait PackedValue: Copy {
    /// What stands in a lane.
    type Value: Packable;

    /// The number of lanes.
    const WIDTH: usize;

    ghost WIDTH: { ℕ };

    /// The lanes, from lane 0 upward.
    ghost lanes: { Self → List Self.Value };

    /// The value whose lane i is what the closure answers at i, for i from 0 upward.
    fn from_fn<G: FnMut(usize) -> Self::Value>(f: G) -> Self
        requires { CallableBelow G.FnMut WIDTH f }
        ensures { IsFromFnResult G.FnMut f (lanes result) WIDTH };

    /// The value in all lanes.
    fn broadcast(value: Self::Value) -> Self
        ensures { lanes result ≡ replicate WIDTH value };

    /// The values of the slice, lane by lane. The slice has `WIDTH` values.
    fn from_slice(slice: &[Self::Value]) -> Self
        requires { length slice.now ≡ WIDTH }
        ensures { lanes result ≡ slice.now };

    /// Writes the lanes to the slice, which has `WIDTH` values. This project's own.
    fn to_slice(&self, out: &mut [Self::Value])
        requires { length out.old ≡ WIDTH }
        ensures { out.new ≡ lanes self.now };

    /// The value of a lane below `WIDTH`.
    fn extract(&self, lane: usize) -> Self::Value
        requires { lane < WIDTH }
        ensures { slice_get (lanes self.now) lane ≡ Some result };

    /// Writes a lane below `WIDTH`; the others stay. This project's own.
    fn set_lane(&mut self, lane: usize, value: Self::Value)
        requires { lane < WIDTH }
        ensures { lanes self.new ≡ slice_set (lanes self.old) lane value };

    /// Group i of the slice, whose groups of `WIDTH` values begin with group 0. The group lies whole in
    /// the slice. This project's own: it stands for upstream's `pack_slice`.
    #[inline]
    final fn load_block(slice: &[Self::Value], i: usize) -> Self
        requires { i * WIDTH + WIDTH ≤ length slice.now }
        ensures { lanes result ≡ slice_range slice.now (i * WIDTH) (i * WIDTH + WIDTH) }
    {
        let start = i * Self::WIDTH;
        Self::from_slice(&slice[start..start + Self::WIDTH])
    }

    /// Writes the lanes to group i of the slice, and nothing else of it. The group lies whole in the
    /// slice. This project's own: it stands for upstream's `pack_slice_mut`.
    #[inline]
    final fn store_block(&self, slice: &mut [Self::Value], i: usize)
        requires { i * WIDTH + WIDTH ≤ length slice.old }
        ensures block { slice_range slice.new (i * WIDTH) (i * WIDTH + WIDTH) ≡ lanes self.now }
        ensures before { take (i * WIDTH) slice.new ≡ take (i * WIDTH) slice.old }
        ensures after { drop (i * WIDTH + WIDTH) slice.new ≡ drop (i * WIDTH + WIDTH) slice.old }
    {
        let start = i * Self::WIDTH;
        self.to_slice(&mut slice[start..start + Self::WIDTH]);
    }
}

/// A value is its own only lane.
impl<T: Packable> PackedValue for T {
    ghost use Rattle.std.specs.Prelude.{[], ◌∷◌};

    type Value = T;

    const WIDTH: usize = 1;

    ghost WIDTH = { 1 };

    ghost lanes = { λ x. x ∷ [] };

    #[inline]
    fn from_fn<G: FnMut(usize) -> T>(mut f: G) -> T {
        f(0)
    }

    #[inline]
    fn broadcast(value: T) -> T {
        value
    }

    #[inline]
    fn from_slice(slice: &[T]) -> T {
        slice[0]
    }

    #[inline]
    fn to_slice(&self, out: &mut [T]) {
        out[0] = *self;
    }

    #[inline]
    fn extract(&self, lane: usize) -> T {
        let _ = lane;
        *self
    }

    #[inline]
    fn set_lane(&mut self, lane: usize, value: T) {
        let _ = lane;
        *self = value;
    }
}

/// The lanes of an array are its entries.
impl<T: Packable, const N: usize> PackedValue for [T; N] {
    type Value = T;

    const WIDTH: usize = N;

    ghost WIDTH = { N };

    ghost lanes = { λ x. x };

    #[inline]
    fn from_fn<G: FnMut(usize) -> T>(f: G) -> [T; N] {
        std::array::from_fn(f)
    }

    #[inline]
    fn broadcast(value: T) -> [T; N] {
        [value; N]
    }

    #[inline]
    fn from_slice(slice: &[T]) -> [T; N] {
        <[T; N]>::try_from(slice).unwrap()
    }

    #[inline]
    fn to_slice(&self, out: &mut [T]) {
        out.copy_from_slice(self);
    }

    #[inline]
    fn extract(&self, lane: usize) -> T {
        self[lane]
    }

    #[inline]
    fn set_lane(&mut self, lane: usize, value: T) {
        self[lane] = value;
    }
}
