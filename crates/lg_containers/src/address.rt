//! The grammar of addresses.

use crate::bytes::is_word_byte;
use crate::grammar::Grammar;

/// The grammar of an account's address: segments of letters, digits, `_` and `-`, joined by `:`, at most 255 bytes.
#[derive(Clone, Copy)]
pub struct AddressGrammar;

/// What has been read of an address: how many bytes, and whether a segment is to begin.
#[derive(Clone, Copy)]
pub struct AddressState {
    length: u8,
    fresh: bool,
}

impl Grammar for AddressGrammar {
    ghost use Rattle.lg_containers.specs.AddressGrammar.{IsAddress};
    ghost use Rattle.lg_containers.specs.AddressLaws.{address_first, address_step, address_ends, address_accepts, address_lives};

    type State = AddressState;

    ghost Names = { IsAddress };

    ghost first = { address_first };

    ghost step = { address_step };

    ghost ends = { address_ends };

    fn start() -> AddressState {
        AddressState {
            length: 0,
            fresh: true,
        }
    }

    fn next(state: AddressState, byte: u8) -> Option<AddressState> {
        if byte == b':' {
            if state.fresh || 254 <= state.length {
                return None;
            }
            return Some(AddressState {
                length: state.length + 1,
                fresh: true,
            });
        }
        if is_word_byte(byte) && state.length < 255 {
            return Some(AddressState {
                length: state.length + 1,
                fresh: false,
            });
        }
        None
    }

    fn is_end(state: AddressState) -> bool {
        !state.fresh
    }

    ghost accepts = { address_accepts };

    ghost lives = { address_lives };
}
