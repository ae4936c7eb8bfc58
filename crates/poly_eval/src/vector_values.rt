//! Values at vectors of packings.
ghost use Rattle.std.specs.Prelude.{◌≡◌, ◌<◌, ◌*◌, ℕ};
ghost use Rattle.p3_field.specs.Powers.{eval};
ghost use Rattle.p3_field.specs.VectorLanes.{vector_lane};

use crate::values::eval_point;
use p3_field::{Field, PackedField, Vectorized};

/// The values at the lanes of a vector of packings: each lane of the answer is the value at that lane of
/// the points.
#[inline]
#[must_use]
pub fn eval_vectorized<F: Field, P: PackedField<F>, const N: usize>(
    coeffs: &[F],
    points: Vectorized<F, P, N>,
) -> Vectorized<F, P, N>
    ensures { (i : ℕ) → i < P.WIDTH * N →
        vector_lane P.ops F.ops P.lanes P.WIDTH i result ≡ eval F.ops F.ops (λ c. c) (vector_lane P.ops F.ops P.lanes P.WIDTH i points) coeffs.now }
{
    eval_point::<F, Vectorized<F, P, N>>(coeffs, points)
}
