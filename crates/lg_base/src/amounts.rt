//! Amounts of an asset, and the volumes that they add up to.

ghost use Rattle.std.specs.Prelude.{◌≡◌, ◌^◌, ◌<◌};
ghost use Rattle.std.specs.Option.{SomeIff};
ghost use Rattle.lg_base.specs.Volumes.{IsWithinLimit, sum_of, balance_of};

use std::marker::Model;

/// The greatest amount, and the greatest input or output of an account: 2 ^ 127 - 1 units of an asset.
pub const LIMIT: u128 = 170141183460469231731687303715884105727;

/// An amount of one asset in its smallest units, from 0 to `LIMIT`.
#[derive(Clone, Copy, PartialEq, Eq, PartialOrd, Ord, Debug)]
pub struct Amount {
    units: u128,
}

impl Model for Amount {
    ghost use Rattle.std.specs.Prelude.{ℕ, ◌<◌, ◌^◌};

    ghost Value = { ℕ };

    ghost view = { λ a. a.units };

    ghost invariant = { λ a. a.units < 2 ^ 127 };

    ghost inverse = { λ n. record { units = n } };
}

impl Amount {
    /// The amount of so many units; none exactly where they pass the limit.
    pub fn of(value: u128) -> Option<Amount>
        ensures { SomeIff result (value < 2 ^ 127) value }
    {
        if value <= LIMIT {
            Some(Amount { units: value })
        } else {
            None
        }
    }

    /// The units.
    pub fn value(self) -> u128
        ensures value { result ≡ self }
        ensures limit { self < 2 ^ 127 }
    {
        self.units
    }
}

/// What an account has taken in and given out of one asset, each in its smallest units and at most `LIMIT`.
///
/// The fields are plain, so that definitions can build volumes; each call that needs the limit asks for it.
#[derive(Clone, Copy, PartialEq, Eq, Debug)]
pub struct Volumes {
    pub input: u128,
    pub output: u128,
}

impl Volumes {
    /// Nothing in and nothing out.
    pub fn zero() -> Volumes
        ensures { result ≡ record { input = 0; output = 0 } }
    {
        Volumes {
            input: 0,
            output: 0,
        }
    }

    /// Both volumes together; none exactly where an input or an output passes the limit.
    pub fn plus(self, other: Volumes) -> Option<Volumes>
        ensures { SomeIff result (IsWithinLimit (sum_of self other)) (sum_of self other) }
    {
        let input = self.input.checked_add(other.input)?;
        let output = self.output.checked_add(other.output)?;
        if input <= LIMIT && output <= LIMIT {
            Some(Volumes { input, output })
        } else {
            None
        }
    }

    /// The balance: the input less the output.
    pub fn balance(self) -> i128
        requires { IsWithinLimit self }
        ensures { result ≡ balance_of self }
    {
        self.input as i128 - self.output as i128
    }
}
