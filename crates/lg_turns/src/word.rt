//! The counting word, whose steps tell what the seats know.
ghost use Rattle.std.specs.Prelude.{◌≡◌, ◌+◌, ◌^◌, ◌<◌, ◌≤◌, true, false, [], ◌∷◌, ◌++◌, length, IfOk};
ghost use Rattle.lg_types.specs.Marked.{open_end};
ghost use Rattle.lg_turns.specs.Rules.{Shown, opener, nobody, lighter, sharer, penless, pen_of, joined, grown, begun, IsPen, CaughtUp};

use crate::rule::{Added, Both, Idle, Law, Look, Open, PenOff, Raise, Share, View, Whole};
use atomic_table::{Seat, Table};
use lg_types::NoMemory;
use std::alloc::Global;
use std::marker::{Brand, PhantomData};

/// Names the table of one object.
pub trait Name {
    ghost use Rattle.atomic_table.specs.Seated.{TableId};

    ghost table: { TableId };
}

impl Name for Brand {
    ghost use Rattle.lg_turns.specs.Rules.{no_table};

    ghost table = { no_table };
}

pub type Token = Seat<(), View>;

/// A new table, and the seat that will add its first event.
#[derive(Drop)]
pub struct Blank {
    pub table: Table<(), View, (), Law, Global>,
    pub(crate) seat: Token,
    pub ghost one: { table.shared.table_id.words ≡ 1 },
    pub ghost same: { seat.table_id ≡ table.shared.table_id },
    pub ghost first: { seat.me.0 ≡ opener },
    pub ghost empty: { seat.me.1 ≡ [] },
}

impl Blank {
    pub fn new(alloc: Global) -> Result<Blank, NoMemory> {
        let (table, seat) = Table::of_words(alloc, &[0], &())?;
        Ok(Blank { table, seat })
    }
}

/// The counting word of the named table.
#[derive(Drop)]
pub struct Word<N: Name> {
    table: Table<(), View, (), Law, Global>,
    of: PhantomData<N>,
    pub ghost named: { table.shared.table_id ≡ N.table },
    pub ghost one: { table.shared.table_id.words ≡ 1 },
}

impl<N: Name> Word<N> {
    pub(crate) fn of(table: Table<(), View, (), Law, Global>) -> Word<N>
        requires named { table.shared.table_id ≡ N.table }
        requires one { table.shared.table_id.words ≡ 1 }
    {
        Word {
            table,
            of: PhantomData,
        }
    }

    pub(crate) fn look(&self, seat: &mut Token) -> u64
        requires { seat.old.table_id ≡ N.table }
        ensures table { seat.new.table_id ≡ N.table }
        ensures view { seat.new.me.0 ≡ seat.old.me.0 }
        ensures slots { seat.new.me.1 ≡ seat.old.me.1 }
        ensures shown { Shown seat.old.me.0 result }
    {
        self.table.shared.load::<Look>(seat, 0)
    }

    pub(crate) fn raise<X: Added>(&self, seat: &mut Token, count: u64)
        requires table { seat.old.table_id ≡ N.table }
        requires pen { seat.old.me.0.pen ≡ true }
        requires weight { 0 < seat.old.me.0.weight }
        requires some { 0 < length seat.old.me.0.seen }
        requires count { count ≡ length X.marked }
        requires ends { open_end (seat.old.me.0.seen ++ X.marked) ≡ 0 }
        requires room { length seat.old.me.0.seen + count < 2 ^ 64 }
        ensures table { seat.new.table_id ≡ N.table }
        ensures view { seat.new.me.0 ≡ grown X.marked seat.old.me.0 }
        ensures slots { seat.new.me.1 ≡ seat.old.me.1 }
    {
        self.table.shared.fetch_add::<Raise<X>>(seat, 0, count);
    }

    pub(crate) fn open<X: Added>(&self, seat: &mut Token)
        requires table { seat.old.table_id ≡ N.table }
        requires pen { seat.old.me.0.pen ≡ true }
        requires none { seat.old.me.0.seen ≡ [] }
        requires count { length X.marked ≡ 1 }
        requires ends { open_end X.marked ≡ 0 }
        ensures table { seat.new.table_id ≡ N.table }
        ensures view { seat.new.me.0 ≡ begun X.marked seat.old.me.0 }
        ensures slots { seat.new.me.1 ≡ seat.old.me.1 }
    {
        self.table.shared.fetch_add::<Open<X>>(seat, 0, 1);
    }

    pub(crate) fn idle(&self, seat: &mut Token) -> Token
        requires { seat.old.table_id ≡ N.table }
        ensures table { (seat.new.table_id ≡ N.table) × (result.table_id ≡ N.table) }
        ensures view { seat.new.me.0 ≡ seat.old.me.0 }
        ensures slots { (seat.new.me.1 ≡ seat.old.me.1) × (result.me.1 ≡ []) }
        ensures idle { result.me.0 ≡ nobody }
    {
        self.table.shared.split_seat::<Idle>(seat)
    }

    pub(crate) fn whole(&self, seat: &mut Token) -> Token
        requires { seat.old.table_id ≡ N.table }
        ensures table { (seat.new.table_id ≡ N.table) × (result.table_id ≡ N.table) }
        ensures view { seat.new.me.0 ≡ nobody }
        ensures slots { (seat.new.me.1 ≡ seat.old.me.1) × (result.me.1 ≡ []) }
        ensures whole { result.me.0 ≡ seat.old.me.0 }
    {
        self.table.shared.split_seat::<Whole>(seat)
    }

    pub(crate) fn share(&self, seat: &mut Token) -> Token
        requires table { seat.old.table_id ≡ N.table }
        requires weight { 2 ≤ seat.old.me.0.weight }
        ensures table { (seat.new.table_id ≡ N.table) × (result.table_id ≡ N.table) }
        ensures view { seat.new.me.0 ≡ lighter seat.old.me.0 }
        ensures slots { (seat.new.me.1 ≡ seat.old.me.1) × (result.me.1 ≡ []) }
        ensures share { result.me.0 ≡ sharer seat.old.me.0 }
    {
        self.table.shared.split_seat::<Share>(seat)
    }

    pub(crate) fn pen_off(&self, seat: &mut Token) -> Token
        requires { seat.old.table_id ≡ N.table }
        ensures table { (seat.new.table_id ≡ N.table) × (result.table_id ≡ N.table) }
        ensures view { seat.new.me.0 ≡ penless seat.old.me.0 }
        ensures slots { (seat.new.me.1 ≡ seat.old.me.1) × (result.me.1 ≡ []) }
        ensures pen { result.me.0 ≡ pen_of seat.old.me.0 }
    {
        self.table.shared.split_seat::<PenOff>(seat)
    }

    pub(crate) fn join(&self, seat: &mut Token, other: Token)
        requires table { (seat.old.table_id ≡ N.table) × (other.table_id ≡ N.table) }
        requires slots { other.me.1 ≡ [] }
        ensures table { seat.new.table_id ≡ N.table }
        ensures view { seat.new.me.0 ≡ joined seat.old.me.0 other.me.0 }
        ensures slots { seat.new.me.1 ≡ seat.old.me.1 }
    {
        self.table.shared.join_seat::<Both>(seat, other);
    }
}

/// Brings a seat up to what the seat that adds events has seen, and gives the number of all events.
pub(crate) fn catch_up<N: Name>(word: &Word<N>, seat: &mut Token, pen: &mut Token) -> u64
    requires table { (seat.old.table_id ≡ N.table) × (pen.old.table_id ≡ N.table) }
    requires pen { IsPen pen.old.me.0 }
    requires seat { seat.old.me.0.pen ≡ false }
    ensures table { (seat.new.table_id ≡ N.table) × (pen.new.table_id ≡ N.table) }
    ensures slots { (seat.new.me.1 ≡ seat.old.me.1) × (pen.new.me.1 ≡ pen.old.me.1) }
    ensures seat { CaughtUp seat.old.me.0 seat.new.me.0 pen.old.me.0.seen }
    ensures pen { IsPen pen.new.me.0 }
    ensures all { pen.new.me.0.seen ≡ pen.old.me.0.seen }
    ensures ends { open_end pen.old.me.0.seen ≡ 0 }
    ensures count { result ≡ length pen.old.me.0.seen }
{
    let whole = word.whole(pen);
    word.join(seat, whole);
    let count = word.look(seat);
    let off = word.pen_off(seat);
    word.join(pen, off);
    count
}
