//! Three values.
ghost use Rattle.std.specs.Prelude.{◌≡◌};
ghost use Rattle.aig_circuit.specs.Values.{value_and, value_not};

/// What is known of a variable: that it is 0, that it is 1, or neither.
#[derive(Clone, Copy, PartialEq)]
pub enum Val {
    /// 0.
    Zero,
    /// 1.
    One,
    /// It may be either.
    X,
}

impl Val {
    /// 0 where one of the two is 0, 1 where both are 1, and else x.
    pub fn and(self, other: Val) -> Val
        ensures { result ≡ value_and self other }
    {
        match (self, other) {
            (Val::Zero, _) | (_, Val::Zero) => Val::Zero,
            (Val::One, Val::One) => Val::One,
            _ => Val::X,
        }
    }

    /// The other one of 0 and 1; x stays x.
    pub fn not(self) -> Val
        ensures { result ≡ value_not self }
    {
        match self {
            Val::Zero => Val::One,
            Val::One => Val::Zero,
            Val::X => Val::X,
        }
    }
}
