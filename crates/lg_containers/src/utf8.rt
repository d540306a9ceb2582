//! UTF-8 read from left to right, byte by byte (Unicode Standard, table 3-7).
ghost use Rattle.std.specs.Prelude.{◌≡◌};
ghost use Rattle.lg_containers.specs.Utf8.{utf8_step, lead_state, is_boundary as boundary_of};

/// Where a reading of UTF-8 stands.
#[derive(Clone, Copy)]
pub enum Utf8State {
    /// A character begins here.
    Boundary,
    /// Inside a character: its next byte is from the first number to the second, and as many
    /// more as the third follow it.
    Inside(u8, u8, u8),
}

/// The state after one more byte, or `None` where no character goes on so.
#[tactic(auto, unfolding(crate::specs::Utf8::utf8_step))]
pub fn next(state: Utf8State, byte: u8) -> Option<Utf8State>
    ensures { result ≡ utf8_step state byte }
{
    match state {
        Utf8State::Boundary => lead(byte),
        Utf8State::Inside(low, high, left) => {
            if byte < low {
                return None;
            }
            if byte > high {
                return None;
            }
            if left == 0 {
                Some(Utf8State::Boundary)
            } else {
                Some(Utf8State::Inside(0x80, 0xBF, left - 1))
            }
        }
    }
}

/// The state after the first byte of a character.
#[tactic(auto, unfolding(crate::specs::Utf8::lead_state))]
fn lead(byte: u8) -> Option<Utf8State>
    ensures { result ≡ lead_state byte }
{
    match byte {
        0..=0x7F => Some(Utf8State::Boundary),
        0xC2..=0xDF => Some(Utf8State::Inside(0x80, 0xBF, 0)),
        0xE0 => Some(Utf8State::Inside(0xA0, 0xBF, 1)),
        0xED => Some(Utf8State::Inside(0x80, 0x9F, 1)),
        0xE1..=0xEF => Some(Utf8State::Inside(0x80, 0xBF, 1)),
        0xF0 => Some(Utf8State::Inside(0x90, 0xBF, 2)),
        0xF1..=0xF3 => Some(Utf8State::Inside(0x80, 0xBF, 2)),
        0xF4 => Some(Utf8State::Inside(0x80, 0x8F, 2)),
        _ => None,
    }
}

/// Whether a character may begin, or the text end.
pub fn is_boundary(state: Utf8State) -> bool
    ensures { result ≡ boundary_of state }
{
    matches!(state, Utf8State::Boundary)
}
