//! Variables and literals, numbered as in AIGER.

ghost use Rattle.std.specs.Prelude.{◌≡◌, ℕ, ◌+◌, ◌*◌, ◌^◌, ◌<◌, if◌then◌else◌};
ghost use Rattle.ja_base.specs.Literals.{variable, is_negated, negated, literal_of};

use std::marker::Model;

/// A variable; 0 is the constant.
#[derive(Clone, Copy, Debug, PartialEq, Eq, PartialOrd, Ord)]
pub struct Var(pub u32);

impl Model for Var {
    ghost use Rattle.std.specs.Prelude.{ℕ};

    ghost Value = { ℕ };

    ghost view = { λ v. v.0 };

    ghost inverse = { λ n. record { 0 = n } };
}

/// A literal: `2v` for the variable v, `2v + 1` for its negation. 0 is false and 1 is true.
#[derive(Clone, Copy, Debug, Default, PartialEq, Eq, PartialOrd, Ord)]
pub struct Lit(pub u32);

impl Model for Lit {
    ghost use Rattle.std.specs.Prelude.{ℕ};

    ghost Value = { ℕ };

    ghost view = { λ l. l.0 };

    ghost inverse = { λ n. record { 0 = n } };
}

impl Var {
    /// The variable's number.
    pub fn number(self) -> u32
        ensures { result ≡ self }
    {
        self.0
    }
}

impl Lit {
    pub fn new(var: Var, neg: bool) -> Lit
        requires { var < 2 ^ 31 }
        ensures { result ≡ literal_of var neg }
    {
        Lit(2 * var.0 + u32::from(neg))
    }

    /// The literal's number, as it stands in a file.
    pub fn number(self) -> u32
        ensures { result ≡ self }
    {
        self.0
    }

    /// The literal of the other sign.
    pub fn not(self) -> Lit
        ensures { result ≡ negated self }
    {
        if self.0 % 2 == 1 {
            Lit(self.0 - 1)
        } else {
            Lit(self.0 + 1)
        }
    }

    pub fn var(self) -> Var
        ensures { result ≡ variable self }
    {
        Var(self.0 / 2)
    }

    pub fn is_neg(self) -> bool
        ensures { result ≡ is_negated self }
    {
        self.0 % 2 == 1
    }
}
