//! The counting word and what each seat at its table knows.

use atomic_table::{Join, Play, Split, TableRule};
use lg_types::Marked;
use std::collections::LinkedList;
use std::marker::{Brand, PhantomData};

/// What a seat at the table knows. No value of it is made.
pub struct View {
    /// The events that were seen.
    pub seen: LinkedList<Marked>,
    /// The two lists that were seen where two seats became one.
    pub one: LinkedList<Marked>,
    pub other: LinkedList<Marked>,
    /// A seat that gathered the weight of all seats has the weight 2^32.
    pub weight: u64,
    /// How many of the events were added through this seat.
    pub made: u64,
    /// Whether it is the seat that adds events.
    pub pen: bool,
}

/// The rule of the table.
pub struct Law;

impl TableRule<(), View, ()> for Law {
    ghost use Rattle.lg_turns.specs.Rules.{Kept, opener};

    ghost holds = { λ _. Kept };

    ghost first = { λ _. opener };
}

/// Events that a raise of the word adds, with their marks.
pub trait Added {
    ghost use Rattle.std.specs.Prelude.{List};
    ghost use Rattle.lg_types.specs.declared.marks.Marked.{Marked};

    ghost marked: { List Marked };
}

impl Added for Brand {
    ghost use Rattle.std.specs.Prelude.{[]};

    ghost marked = { [] };
}

/// A load of the word.
pub struct Look;

impl Play<(), View> for Look {
    ghost use Rattle.lg_turns.specs.Rules.{Looked};

    ghost then = { Looked };
}

/// The word rises by the number of the events.
pub struct Raise<X> {
    of: PhantomData<X>,
}

impl<X: Added> Play<(), View> for Raise<X> {
    ghost use Rattle.lg_turns.specs.Rules.{Raised};

    ghost then = { Raised X.marked };
}

/// The word rises from 0, by the events that the list begins with.
pub struct Open<X> {
    of: PhantomData<X>,
}

impl<X: Added> Play<(), View> for Open<X> {
    ghost use Rattle.lg_turns.specs.Rules.{Opened};

    ghost then = { Opened X.marked };
}

/// A new seat that knows nothing.
pub struct Idle;

impl Split<View> for Idle {
    ghost use Rattle.lg_turns.specs.Rules.{nobody};

    ghost left = { λ v. v };

    ghost right = { λ _. nobody };
}

/// A new seat takes over all that the seat knows and has.
pub struct Whole;

impl Split<View> for Whole {
    ghost use Rattle.lg_turns.specs.Rules.{nobody};

    ghost left = { λ _. nobody };

    ghost right = { λ v. v };
}

/// A new seat has seen the same, and takes the weight 1.
pub struct Share;

impl Split<View> for Share {
    ghost use Rattle.lg_turns.specs.Rules.{lighter, sharer};

    ghost left = { lighter };

    ghost right = { sharer };
}

/// A new seat has seen the same, and is the one that adds events where this seat was.
pub struct PenOff;

impl Split<View> for PenOff {
    ghost use Rattle.lg_turns.specs.Rules.{penless, pen_of};

    ghost left = { penless };

    ghost right = { pen_of };
}

/// Two seats become one.
pub struct Both;

impl Join<View> for Both {
    ghost use Rattle.lg_turns.specs.Rules.{joined, nobody};

    ghost both = { joined };

    ghost spent = { nobody };
}
