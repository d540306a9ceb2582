//! The tests of the readings: each bound cuts the order of insertion, or the order of effective dates, at one place.

ghost use Rattle.std.specs.Prelude.{◌≡◌, int_le, int_lt};
ghost use Rattle.lg_types.specs.declared.moves.Move.{Move};
ghost use Rattle.lg_types.specs.Tally.{date_of};
ghost use Rattle.lg_moves.specs.Bounds.{is_near, is_by_rank, key_of, passes};

use lg_types::Move;

/// A place in both orders: a date of insertion with a transaction, and a rank, the pair of an effective date and a
/// transaction.
#[derive(Clone, Copy)]
pub(crate) struct Key {
    pub inserted: i64,
    pub transaction: u64,
    pub date: i64,
    pub id: u64,
}

/// The test of a reading. `To` takes in its end, `Before` doesn't.
#[derive(Clone, Copy)]
pub(crate) enum Bound {
    InsertedTo(i64),
    InsertedBefore(i64),
    TransactionTo(u64),
    EffectiveTo(i64),
    EffectiveBefore(i64),
    RankTo(i64, u64),
    RankBefore(i64, u64),
}

impl Key {
    /// The key of a move.
    pub(crate) fn of(item: &Move) -> Key
        ensures { result ≡ key_of item.now }
    {
        Key {
            inserted: item.inserted,
            transaction: item.transaction,
            date: item.effective,
            id: item.transaction,
        }
    }
}

impl Bound {
    /// The moves that aren't after a date, of insertion or of effect.
    pub(crate) fn up_to(date: &i64, by_insertion: bool) -> Bound
        ensures { (m : Move) → passes result m ≡ int_le (date_of by_insertion m) date.now }
    {
        if by_insertion {
            Bound::InsertedTo(*date)
        } else {
            Bound::EffectiveTo(*date)
        }
    }

    /// The moves that are before a date, of insertion or of effect.
    pub(crate) fn below(date: &i64, by_insertion: bool) -> Bound
        ensures { (m : Move) → passes result m ≡ int_lt (date_of by_insertion m) date.now }
    {
        if by_insertion {
            Bound::InsertedBefore(*date)
        } else {
            Bound::EffectiveBefore(*date)
        }
    }

    /// Whether a key is on the near side.
    pub(crate) fn is_near(&self, key: &Key) -> bool
        ensures { result ≡ is_near self.now key.now }
    {
        match *self {
            Bound::InsertedTo(date) => key.inserted <= date,
            Bound::InsertedBefore(date) => key.inserted < date,
            Bound::TransactionTo(id) => key.transaction <= id,
            Bound::EffectiveTo(date) => key.date <= date,
            Bound::EffectiveBefore(date) => key.date < date,
            Bound::RankTo(date, id) => key.date < date || (key.date == date && key.id <= id),
            Bound::RankBefore(date, id) => key.date < date || (key.date == date && key.id < id),
        }
    }

    /// Whether a move passes.
    pub(crate) fn passes(&self, item: &Move) -> bool
        ensures { result ≡ passes self.now item.now }
    {
        self.is_near(&Key::of(item))
    }

    /// Whether it cuts the order of effective dates and transactions.
    pub(crate) fn is_by_rank(&self) -> bool
        ensures { result ≡ is_by_rank self.now }
    {
        match *self {
            Bound::InsertedTo(_) | Bound::InsertedBefore(_) | Bound::TransactionTo(_) => false,
            Bound::EffectiveTo(_)
            | Bound::EffectiveBefore(_)
            | Bound::RankTo(_, _)
            | Bound::RankBefore(_, _) => true,
        }
    }
}

/// Whether the key's rank isn't after the other's.
pub(crate) fn is_up_to(key: &Key, other: &Key) -> bool
    ensures { result ≡ is_near (Bound.RankTo other.now.date other.now.id) key.now }
{
    key.date < other.date || (key.date == other.date && key.id <= other.id)
}

/// Whether the key's rank is before the other's.
pub(crate) fn is_before(key: &Key, other: &Key) -> bool
    ensures { result ≡ is_near (Bound.RankBefore other.now.date other.now.id) key.now }
{
    key.date < other.date || (key.date == other.date && key.id < other.id)
}
