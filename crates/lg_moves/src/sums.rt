//! Sums over moves.

ghost use Rattle.std.specs.Prelude.{◌≡◌, ◌+◌, ◌-◌, ◌^◌, ◌<◌, ◌≤◌};
ghost use Rattle.lg_moves.specs.Sums.{sums_with};

use lg_base::Volumes;
use lg_types::Move;

/// The inputs and the outputs of some moves, and how many moves they are.
#[derive(Clone, Copy)]
pub(crate) struct Sums {
    pub input: u128,
    pub output: u128,
    pub count: u64,
}

impl Sums {
    /// The sums of no moves.
    pub(crate) fn zero() -> Sums
        ensures { result ≡ record { input = 0; output = 0; count = 0 } }
    {
        Sums {
            input: 0,
            output: 0,
            count: 0,
        }
    }

    /// The sums with one more move.
    pub(crate) fn with(self, item: &Move) -> Sums
        requires input { self.input < 2 ^ 127 }
        requires output { self.output < 2 ^ 127 }
        requires count { self.count + 1 < 2 ^ 64 }
        ensures { result ≡ sums_with self item.now }
    {
        let amount = item.amount.value();
        if item.incoming {
            Sums {
                input: self.input + amount,
                output: self.output,
                count: self.count + 1,
            }
        } else {
            Sums {
                input: self.input,
                output: self.output + amount,
                count: self.count + 1,
            }
        }
    }

    /// Both sums together.
    pub(crate) fn plus(self, other: Sums) -> Sums
        requires input { self.input + other.input < 2 ^ 128 }
        requires output { self.output + other.output < 2 ^ 128 }
        requires count { self.count + other.count < 2 ^ 64 }
        ensures { result ≡ record { input = self.input + other.input; output = self.output + other.output; count = self.count + other.count } }
    {
        Sums {
            input: self.input + other.input,
            output: self.output + other.output,
            count: self.count + other.count,
        }
    }

    /// What is left of the sums without the others.
    pub(crate) fn minus(self, other: Sums) -> Sums
        requires input { other.input ≤ self.input }
        requires output { other.output ≤ self.output }
        requires count { other.count ≤ self.count }
        ensures { result ≡ record { input = self.input - other.input; output = self.output - other.output; count = self.count - other.count } }
    {
        Sums {
            input: self.input - other.input,
            output: self.output - other.output,
            count: self.count - other.count,
        }
    }

    /// The inputs and outputs alone.
    pub(crate) fn volumes(self) -> Volumes
        ensures { result ≡ record { input = self.input; output = self.output } }
    {
        Volumes {
            input: self.input,
            output: self.output,
        }
    }
}
