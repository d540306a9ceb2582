//! What the grammar of a kind of name is.

/// The grammar of a kind of name: which lists of bytes are names, and a machine that reads them byte by byte.
pub trait Grammar {
    type State: Copy;

    ghost use Rattle.std.specs.Prelude.{◌≡◌, ℕ, Bool, List, Option, Some, ◌↔◌};
    ghost use Rattle.lg_containers.specs.Grammar.{runs, Accepts, Lives};

    /// The names of the grammar.
    ghost Names: { List ℕ → Type 0 };

    /// The machine's first state.
    ghost first: { Self.State };

    /// The state after one more byte, none where no name goes on so.
    ghost step: { Self.State → ℕ → Option Self.State };

    /// Whether a name may end in the state.
    ghost ends: { Self.State → Bool };

    fn start() -> Self::State
        ensures { result ≡ first };

    fn next(state: Self::State, byte: u8) -> Option<Self::State>
        ensures { result ≡ step state byte };

    fn is_end(state: Self::State) -> bool
        ensures { result ≡ ends state };

    /// The machine accepts the names and nothing else.
    ghost accepts: { (bytes : List ℕ) → Names bytes ↔ Accepts step ends first bytes };

    /// From each state that the machine reaches some name can be completed.
    ghost lives: { (bytes : List ℕ) (s : Self.State) → runs step first bytes ≡ Some s → Lives step ends s };
}
