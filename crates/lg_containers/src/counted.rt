//! The grammars of ledger names, buckets and keys: a first byte of one kind, and a limited number of further bytes.

ghost use Rattle.std.specs.Prelude.{◌≡◌};
ghost use Rattle.lg_containers.specs.CountedLaws.{counted_next, counted_ends};

use crate::bytes::is_word_byte;
use crate::grammar::Grammar;

/// The grammar of a ledger's name: `[A-Za-z0-9][A-Za-z0-9_-]{0,62}`.
#[derive(Clone, Copy)]
pub struct LedgerNameGrammar;

/// The grammar of a bucket: `[A-Za-z0-9_-]{1,63}`.
#[derive(Clone, Copy)]
pub struct BucketGrammar;

/// The grammar of an idempotency key: 1 to 255 bytes from 0x21 to 0x7E.
#[derive(Clone, Copy)]
pub struct KeyGrammar;

/// What has been read of such a name: nothing, or how many more bytes may come.
#[derive(Clone, Copy)]
pub enum CountedState {
    Start,
    More(u8),
}

impl Grammar for LedgerNameGrammar {
    ghost use Rattle.std.specs.Prelude.{refl};
    ghost use Rattle.std.specs.Char.{is_ascii_alphanumeric};
    ghost use Rattle.lg_containers.specs.Bytes.{is_word_byte as word_byte};
    ghost use Rattle.lg_containers.specs.CountedGrammar.{IsLedgerName};
    ghost use Rattle.lg_containers.specs.CountedLaws.{counted_step, counted_ends, counted_accepts, counted_lives};
    ghost use Rattle.lg_containers.specs.declared.counted.CountedState.TheVariants.{Start};

    type State = CountedState;

    ghost Names = { IsLedgerName };

    ghost first = { Start };

    ghost step = { counted_step is_ascii_alphanumeric word_byte 62 };

    ghost ends = { counted_ends };

    fn start() -> CountedState {
        CountedState::Start
    }

    fn next(state: CountedState, byte: u8) -> Option<CountedState> {
        next_counted(state, byte.is_ascii_alphanumeric(), is_word_byte(byte), 62)
    }

    fn is_end(state: CountedState) -> bool {
        is_end_counted(state)
    }

    ghost accepts = { counted_accepts is_ascii_alphanumeric word_byte 62 };

    ghost lives = { counted_lives is_ascii_alphanumeric word_byte 62 97 refl };
}

impl Grammar for BucketGrammar {
    ghost use Rattle.std.specs.Prelude.{refl};
    ghost use Rattle.lg_containers.specs.Bytes.{is_word_byte as word_byte};
    ghost use Rattle.lg_containers.specs.CountedGrammar.{IsBucket};
    ghost use Rattle.lg_containers.specs.CountedLaws.{counted_step, counted_ends, counted_accepts, counted_lives};
    ghost use Rattle.lg_containers.specs.declared.counted.CountedState.TheVariants.{Start};

    type State = CountedState;

    ghost Names = { IsBucket };

    ghost first = { Start };

    ghost step = { counted_step word_byte word_byte 62 };

    ghost ends = { counted_ends };

    fn start() -> CountedState {
        CountedState::Start
    }

    fn next(state: CountedState, byte: u8) -> Option<CountedState> {
        next_counted(state, is_word_byte(byte), is_word_byte(byte), 62)
    }

    fn is_end(state: CountedState) -> bool {
        is_end_counted(state)
    }

    ghost accepts = { counted_accepts word_byte word_byte 62 };

    ghost lives = { counted_lives word_byte word_byte 62 97 refl };
}

impl Grammar for KeyGrammar {
    ghost use Rattle.std.specs.Prelude.{refl};
    ghost use Rattle.std.specs.Char.{is_ascii_graphic};
    ghost use Rattle.lg_containers.specs.CountedGrammar.{IsKey};
    ghost use Rattle.lg_containers.specs.CountedLaws.{counted_step, counted_ends, counted_accepts, counted_lives};
    ghost use Rattle.lg_containers.specs.declared.counted.CountedState.TheVariants.{Start};

    type State = CountedState;

    ghost Names = { IsKey };

    ghost first = { Start };

    ghost step = { counted_step is_ascii_graphic is_ascii_graphic 254 };

    ghost ends = { counted_ends };

    fn start() -> CountedState {
        CountedState::Start
    }

    fn next(state: CountedState, byte: u8) -> Option<CountedState> {
        next_counted(state, byte.is_ascii_graphic(), byte.is_ascii_graphic(), 254)
    }

    fn is_end(state: CountedState) -> bool {
        is_end_counted(state)
    }

    ghost accepts = { counted_accepts is_ascii_graphic is_ascii_graphic 254 };

    ghost lives = { counted_lives is_ascii_graphic is_ascii_graphic 254 97 refl };
}

fn next_counted(
    state: CountedState,
    is_first: bool,
    is_more: bool,
    limit: u8,
) -> Option<CountedState>
    ensures { result ≡ counted_next is_first is_more limit state }
{
    match state {
        CountedState::Start => {
            if is_first {
                Some(CountedState::More(limit))
            } else {
                None
            }
        }
        CountedState::More(left) => {
            if 0 < left && is_more {
                Some(CountedState::More(left - 1))
            } else {
                None
            }
        }
    }
}

fn is_end_counted(state: CountedState) -> bool
    ensures { result ≡ counted_ends state }
{
    match state {
        CountedState::Start => false,
        CountedState::More(_) => true,
    }
}
