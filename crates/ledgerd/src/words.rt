//! The words of the command line.

ghost use Rattle.std.specs.Prelude.{◌≡◌, ◌↔◌, ◌≤◌, [], ◌∷◌, IsTrue, codes, decimal, map, string_bytes};
ghost use Rattle.ledgerd.specs.Words.{IsCommandOf, IsCount};

use lg_routes::read_number;

/// The most lines of a made script.
const MOST_LINES: u64 = 100_000;

/// What the words ask for.
#[derive(Clone, Copy, PartialEq, Eq, Debug)]
pub enum Command {
    /// Run the script of standard input.
    Run,
    /// Make a script of so many lines from a seed, run it, and write a summary.
    Make { seed: u64, lines: u32 },
    /// Make that script, and write it.
    Script { seed: u64, lines: u32 },
    /// Write the usage line.
    Usage,
}

/// What the words ask for, and `None` where they are of no form.
pub fn read_words(words: &[String]) -> Option<Command>
    ensures { IsCommandOf (map string_bytes words.now) result }
{
    match words {
        [word] => read_word(word.as_bytes()),
        [word, seed, lines] => read_made(word.as_bytes(), seed.as_bytes(), lines.as_bytes()),
        _ => None,
    }
}

/// What one word asks for.
fn read_word(word: &[u8]) -> Option<Command>
    ensures { IsCommandOf (word.now ∷ []) result }
{
    match word {
        b"run" => Some(Command::Run),
        b"usage" => Some(Command::Usage),
        _ => None,
    }
}

/// What a word with a seed and a number of lines asks for.
fn read_made(word: &[u8], seed: &[u8], lines: &[u8]) -> Option<Command>
    ensures { IsCommandOf (word.now ∷ (seed.now ∷ (lines.now ∷ []))) result }
{
    let seed = read_number(seed)?;
    let lines = read_count(lines)?;
    if is_make(word) {
        Some(Command::Make { seed, lines })
    } else if is_script(word) {
        Some(Command::Script { seed, lines })
    } else {
        None
    }
}

fn is_make(word: &[u8]) -> bool
    ensures { IsTrue result ↔ (word.now ≡ codes "make") }
{
    match word {
        b"make" => true,
        _ => false,
    }
}

fn is_script(word: &[u8]) -> bool
    ensures { IsTrue result ↔ (word.now ≡ codes "script") }
{
    match word {
        b"script" => true,
        _ => false,
    }
}

/// A number of lines, from 1 to 100,000.
fn read_count(bytes: &[u8]) -> Option<u32>
    ensures { IsCount bytes.now result }
{
    count_of(bytes, read_number(bytes)?)
}

/// The number of lines, where the number whose digits these are is one.
fn count_of(digits: &[u8], number: u64) -> Option<u32>
    requires { digits.now ≡ decimal number }
    ensures { IsCount digits.now result }
{
    if is_count(number) {
        Some(number as u32)
    } else {
        None
    }
}

fn is_count(number: u64) -> bool
    ensures { IsTrue result ↔ ((1 ≤ number) × (number ≤ 100000)) }
{
    1 <= number && number <= MOST_LINES
}
