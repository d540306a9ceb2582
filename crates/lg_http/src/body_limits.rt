//! How long bodies may be.

ghost use Rattle.std.specs.Prelude.{◌≡◌, ℕ, List, IfOk};

use lg_base::NoMemory;

/// How many bytes a body may have.
pub trait BodyLimits {
    /// The most bytes of a body, by the method and the target of its message.
    ghost limit: { List ℕ → List ℕ → ℕ };

    /// The most bytes of a body.
    fn most(&self, method: &[u8], target: &[u8]) -> Result<u32, NoMemory>
        ensures { IfOk result (λ n. n ≡ limit method.now target.now) };
}
