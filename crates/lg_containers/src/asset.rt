//! The grammar of asset names.

use crate::bytes::is_code_byte;
use crate::grammar::Grammar;

/// The grammar of an asset's name: `[A-Z][A-Z0-9]{0,16}(_[A-Z]{1,16})?(/[0-9]{1,6})?`.
#[derive(Clone, Copy)]
pub struct AssetGrammar;

/// What has been read of an asset's name. The numbers are how many more bytes of that part may come.
#[derive(Clone, Copy)]
pub enum AssetState {
    Start,
    Code(u8),
    Underscore,
    Suffix(u8),
    Slash,
    Scale(u8),
}

impl Grammar for AssetGrammar {
    ghost use Rattle.lg_containers.specs.AssetGrammar.{IsAsset};
    ghost use Rattle.lg_containers.specs.AssetLaws.{asset_step, asset_ends, asset_accepts, asset_lives};
    ghost use Rattle.lg_containers.specs.declared.asset.AssetState.TheVariants.{Start};

    type State = AssetState;

    ghost Names = { IsAsset };

    ghost first = { Start };

    ghost step = { asset_step };

    ghost ends = { asset_ends };

    fn start() -> AssetState {
        AssetState::Start
    }

    fn next(state: AssetState, byte: u8) -> Option<AssetState> {
        match state {
            AssetState::Start => next_where(byte.is_ascii_uppercase(), AssetState::Code(16)),
            AssetState::Code(left) => {
                if 0 < left && is_code_byte(byte) {
                    Some(AssetState::Code(left - 1))
                } else if byte == b'_' {
                    Some(AssetState::Underscore)
                } else {
                    next_where(byte == b'/', AssetState::Slash)
                }
            }
            AssetState::Underscore => next_where(byte.is_ascii_uppercase(), AssetState::Suffix(15)),
            AssetState::Suffix(left) => {
                if 0 < left && byte.is_ascii_uppercase() {
                    Some(AssetState::Suffix(left - 1))
                } else {
                    next_where(byte == b'/', AssetState::Slash)
                }
            }
            AssetState::Slash => next_where(byte.is_ascii_digit(), AssetState::Scale(5)),
            AssetState::Scale(left) => {
                if 0 < left && byte.is_ascii_digit() {
                    Some(AssetState::Scale(left - 1))
                } else {
                    None
                }
            }
        }
    }

    fn is_end(state: AssetState) -> bool {
        match state {
            AssetState::Code(_) | AssetState::Suffix(_) | AssetState::Scale(_) => true,
            AssetState::Start | AssetState::Underscore | AssetState::Slash => false,
        }
    }

    ghost accepts = { asset_accepts };

    ghost lives = { asset_lives };
}

ghost use Rattle.std.specs.Prelude.{◌≡◌, if◌then◌else◌};

fn next_where(holds: bool, state: AssetState) -> Option<AssetState>
    ensures { result ≡ (if holds then Some state else None) }
{
    if holds { Some(state) } else { None }
}
