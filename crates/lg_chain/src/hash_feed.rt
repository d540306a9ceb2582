//! A feed that hashes what it is fed.

ghost use Rattle.std.specs.Prelude.{◌≡◌, ℕ, List, []};
ghost use Rattle.sha2.specs.Sha256.{sha256};

use lg_base::{Feed, Stop};
use sha2::{Digest, Sha256};

/// Hashes what it is fed by SHA-256. It never stops.
#[derive(Drop)]
pub struct HashFeed {
    hasher: Sha256,
}

impl Feed for HashFeed {
    ghost fed = { λ f m. ⟦<Sha256 as Digest>⟧.holds f.hasher m };

    ghost stops = { λ _. 0 };

    fn piece(&mut self, bytes: &[u8]) -> Result<(), Stop> {
        self.hasher.update(bytes);
        Ok(())
    }
}

impl HashFeed {
    /// A feed that was fed nothing.
    pub fn new() -> HashFeed
        ensures { ⟦<HashFeed as Feed>⟧.fed result [] }
    {
        HashFeed {
            hasher: Sha256::new(),
        }
    }

    /// The hash of what it was fed.
    pub fn digest(self) -> [u8; 32]
        ensures { (fed : List ℕ) → ⟦<HashFeed as Feed>⟧.fed self fed → result ≡ sha256 fed }
    {
        let HashFeed { hasher } = self;
        hasher.finalize()
    }
}
