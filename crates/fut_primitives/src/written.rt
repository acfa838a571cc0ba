// Written types.
ghost use Rattle.std.specs.Prelude.{◌≡◌};
ghost use Rattle.fut_primitives.specs.Written.{number};

use fut_scalar::ScalarType;

/// A size in the type of a primitive.
#[derive(Clone, Copy)]
pub enum Size {
    N,
    M,
    K,
    /// `[?]`: no name and no constant tells it.
    Unknown,
}

/// A variable for any type of what arrays may hold.
#[derive(Clone, Copy)]
pub enum Letter {
    A,
    B,
    C,
    D,
    E,
    F,
}

impl Letter {
    /// Its place among the letters.
    pub fn number(self) -> u32
        ensures { result ≡ number self }
    {
        match self {
            Letter::A => 0,
            Letter::B => 1,
            Letter::C => 2,
            Letter::D => 3,
            Letter::E => 4,
            Letter::F => 5,
        }
    }
}

/// The type of a primitive as the language's table writes it.
#[derive(Clone, Copy)]
pub enum Written {
    /// `a`, `b`, ..
    Variable(Letter),
    Scalar(ScalarType),
    /// `t`: the scalar type whose member the primitive is.
    Own,
    /// `u`: the scalar type that a conversion is from.
    From,
    /// `[n]a`
    Array(Size, &'static Written),
    /// `*a`: a fresh result, or a parameter that is consumed.
    Unique(&'static Written),
    /// `(a, b)`
    Pair(&'static Written, &'static Written),
    /// `(a, b, c)`
    Triple(&'static Written, &'static Written, &'static Written),
    /// `(n: i64)`: a parameter that is a size of what stands behind it.
    Named(Size, &'static Written),
    /// `a -> b`
    Function(&'static Written, &'static Written),
}
