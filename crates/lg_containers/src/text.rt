//! The grammar of texts.

use crate::grammar::Grammar;
use crate::utf8::{self, Utf8State};

/// The grammar of a text: any UTF-8.
#[derive(Clone, Copy)]
pub struct TextGrammar;

impl Grammar for TextGrammar {
    ghost use Rattle.std.specs.Prelude.{IsUtf8};
    ghost use Rattle.lg_containers.specs.Utf8.{utf8_step, is_boundary};
    ghost use Rattle.lg_containers.specs.TextLaws.{text_accepts, text_lives};
    ghost use Rattle.lg_containers.specs.declared.utf8.Utf8State.TheVariants.{Boundary};

    type State = Utf8State;

    ghost Names = { IsUtf8 };

    ghost first = { Boundary };

    ghost step = { utf8_step };

    ghost ends = { is_boundary };

    fn start() -> Utf8State {
        Utf8State::Boundary
    }

    fn next(state: Utf8State, byte: u8) -> Option<Utf8State> {
        utf8::next(state, byte)
    }

    fn is_end(state: Utf8State) -> bool {
        utf8::is_boundary(state)
    }

    ghost accepts = { text_accepts };

    ghost lives = { text_lives };
}
