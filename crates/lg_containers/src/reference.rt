//! The grammar of references.

use crate::grammar::Grammar;
use crate::utf8::{self, Utf8State};

/// The grammar of a transaction's reference: 1 to 255 bytes of UTF-8.
#[derive(Clone, Copy)]
pub struct ReferenceGrammar;

/// What has been read of a reference: how many bytes, and where a reading of UTF-8 stands.
#[derive(Clone, Copy)]
pub struct ReferenceState {
    length: u8,
    character: Utf8State,
}

impl Grammar for ReferenceGrammar {
    ghost use Rattle.lg_containers.specs.ReferenceGrammar.{IsReference};
    ghost use Rattle.lg_containers.specs.ReferenceLaws.{reference_first, reference_step, reference_ends, reference_accepts, reference_lives};

    type State = ReferenceState;

    ghost Names = { IsReference };

    ghost first = { reference_first };

    ghost step = { reference_step };

    ghost ends = { reference_ends };

    fn start() -> ReferenceState {
        ReferenceState {
            length: 0,
            character: Utf8State::Boundary,
        }
    }

    fn next(state: ReferenceState, byte: u8) -> Option<ReferenceState> {
        let character = utf8::next(state.character, byte)?;
        let to_come = match character {
            Utf8State::Boundary => 0,
            Utf8State::Inside(_, _, left) => left as u32 + 1,
        };
        if state.length as u32 + to_come < 255 {
            Some(ReferenceState {
                length: state.length + 1,
                character,
            })
        } else {
            None
        }
    }

    fn is_end(state: ReferenceState) -> bool {
        utf8::is_boundary(state.character) && state.length > 0
    }

    ghost accepts = { reference_accepts };

    ghost lives = { reference_lives };
}
