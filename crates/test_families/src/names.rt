//! The names of extensions, by the field below and the degree.

/// The extensions over one field by polynomials of one shape, or residues themselves.
#[derive(Clone, Copy)]
pub enum Family {
    /// By `X^D = W` modulo 17.
    F17,
    /// By `X^2 = W` modulo 17, where W is a square.
    F17b,
    /// By `X^2 = W` modulo 15.
    Z15,
    /// By `X^D = W` modulo 31.
    F31,
    /// By `X^D = W` over BabyBear.
    BabyBear,
    /// By `X^3 = X + 1` modulo 31.
    F31Cubic,
    /// By `X^5 = 1 - X^2` modulo 17.
    F17Quintic,
    /// By `X^5 = 1 - X^2` modulo 2.
    F2Quintic,
    /// By `X^7 = X + 1` modulo 2.
    F2Septic,
    /// By `X^2 = -1` modulo 31.
    F31Complex,
    /// By `X^2 = W` over those.
    F31Tower,
    /// By `X^D = 1` modulo 17.
    SplitF17,
    /// By `X^2 = 0` modulo 17.
    NilpotentF17,
    /// By `X^D = 1` modulo 31.
    SplitF31,
    /// By `X^3 = X + 1` modulo 59.
    F59Cubic,
    /// The residues modulo 15.
    ResiduesOf15,
    /// The residues modulo 4.
    ResiduesOf4,
}

/// An extension: its family and its degree.
#[derive(Clone, Copy)]
pub struct Extension {
    /// The family.
    pub family: Family,
    /// The degree.
    pub degree: usize,
}

/// The names, and the families and degrees. Those after the tower are no fields, as are `f17bx2` and `z15x2`.
static NAMES: [(&str, Family, usize); 25] = [
    ("f17x2", Family::F17, 2),
    ("f17x4", Family::F17, 4),
    ("f17x8", Family::F17, 8),
    ("f17bx2", Family::F17b, 2),
    ("z15x2", Family::Z15, 2),
    ("f31x3", Family::F31, 3),
    ("f31x5", Family::F31, 5),
    ("f31x6", Family::F31, 6),
    ("bbx4", Family::BabyBear, 4),
    ("f31t3", Family::F31Cubic, 3),
    ("f17t5", Family::F17Quintic, 5),
    ("f2t5", Family::F2Quintic, 5),
    ("f2t7", Family::F2Septic, 7),
    ("f31c", Family::F31Complex, 2),
    ("f31cx2", Family::F31Tower, 2),
    ("f17sx2", Family::SplitF17, 2),
    ("f17sx4", Family::SplitF17, 4),
    ("f17sx8", Family::SplitF17, 8),
    ("f17nx2", Family::NilpotentF17, 2),
    ("f31sx3", Family::SplitF31, 3),
    ("f31sx5", Family::SplitF31, 5),
    ("f31sx6", Family::SplitF31, 6),
    ("f59t3", Family::F59Cubic, 3),
    ("z15", Family::ResiduesOf15, 1),
    ("z4", Family::ResiduesOf4, 1),
];

impl Extension {
    /// The extension of a name.
    pub fn of_name(name: &str) -> Option<Self> {
        for row in &NAMES {
            let (known, family, degree) = *row;
            if known == name {
                return Some(Extension { family, degree });
            }
        }
        None
    }
}
