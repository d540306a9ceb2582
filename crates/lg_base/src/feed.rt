//! Feeds: what takes a text piece by piece. A text is written once, over any feed: counted, kept, hashed or written.

ghost use Rattle.std.specs.Prelude.{◌≡◌, ℕ, ◌^◌, ◌-◌, ◌==◌, ◌≤◌, List, [], length, min, MatchBool};
ghost use Rattle.lg_base.specs.Growth.{Gives};

use std::alloc::Global;

/// A feed took less than it was given; its count of stops tells that it did.
#[derive(Clone, Copy, PartialEq, Eq, Debug)]
pub struct Stop;

/// What takes a text piece by piece.
pub trait Feed {
    /// The lists of bytes that the feed stands for: what it was fed.
    ghost fed: { Self → List ℕ → Type 0 };

    /// How often the feed has stopped; never falls.
    ghost stops: { Self → ℕ };

    /// The name of the borrow that a feed over a borrowed sink goes through.
    ghost lent: { Self → ℕ } = { λ _. 0 };

    /// Takes the whole piece, or some front of it and stops.
    fn piece(&mut self, bytes: &[u8]) -> Result<(), Stop>
        ensures { Gives fed stops lent self.old self.new bytes.now result };
}

/// Counts the bytes that it is fed, up to 2 ^ 64 - 1.
#[derive(Drop)]
pub struct CountFeed {
    number: u64,
}

impl Feed for CountFeed {
    ghost fed = { λ f m. MatchBool (f.number == (2 ^ 64 - 1)) (f.number ≤ length m) (f.number ≡ length m) };

    ghost stops = { λ f. 0 };

    fn piece(&mut self, bytes: &[u8]) -> Result<(), Stop> {
        self.number = self.number.saturating_add(bytes.len() as u64);
        Ok(())
    }
}

impl CountFeed {
    /// A feed that was fed nothing.
    pub fn new() -> CountFeed
        ensures { ⟦<CountFeed as Feed>⟧.fed result [] }
    {
        CountFeed { number: 0 }
    }

    /// How many bytes it was fed; 2 ^ 64 - 1 stands for that many or more.
    pub fn number(&self) -> u64
        ensures { (fed : List ℕ) → ⟦<CountFeed as Feed>⟧.fed self.now fed → result ≡ min (length fed) (2 ^ 64 - 1) }
    {
        self.number
    }
}

/// Keeps the bytes that it is fed in memory. Each of its stops is want of memory.
#[derive(Drop)]
pub struct ByteFeed {
    bytes: Vec<u8>,
    stops: u64,
}

impl Feed for ByteFeed {
    ghost fed = { λ f m. f.bytes.items ≡ m };

    ghost stops = { λ f. f.stops };

    fn piece(&mut self, bytes: &[u8]) -> Result<(), Stop> {
        match self.bytes.extend_from_slice(bytes) {
            Ok(()) => Ok(()),
            Err(_) => {
                self.stops = self.stops.saturating_add(1);
                Err(Stop)
            }
        }
    }
}

impl ByteFeed {
    /// A feed that was fed nothing.
    pub fn new(alloc: Global) -> ByteFeed
        ensures { ⟦<ByteFeed as Feed>⟧.fed result [] }
    {
        ByteFeed {
            bytes: Vec::new(alloc),
            stops: 0,
        }
    }

    /// The bytes that it was fed.
    pub fn bytes(&self) -> &[u8]
        ensures { ⟦<ByteFeed as Feed>⟧.fed self.now result.now }
    {
        self.bytes.as_slice()
    }

    /// The bytes that it was fed, to keep.
    pub fn into_bytes(self) -> Vec<u8>
        ensures { ⟦<ByteFeed as Feed>⟧.fed self result.items }
    {
        let ByteFeed { bytes, stops: _ } = self;
        bytes
    }
}
