//! A scan through the bytes of a head: it finds where the head may end, and where it passes a limit.

ghost use Rattle.std.specs.Prelude.{◌≡◌, ◌+◌, ◌-◌, ◌<◌, ◌≤◌, ◌⊎◌, ◌↔◌, ℕ, List, IsTrue};

/// The most bytes of a head.
pub const HEAD_BYTES: usize = 16384;

/// The most header lines of a head.
pub const HEAD_LINES: usize = 64;

/// Why a scan stopped.
#[derive(Clone, Copy, PartialEq, Eq, Debug)]
pub enum Seen {
    /// All bytes were looked at.
    All,
    /// An empty line was passed behind a line with text.
    Empty,
    /// The next byte passes a limit.
    Full,
}

/// How far a scan has come, and the lines that it has counted.
#[derive(Clone, Copy, PartialEq, Eq, Debug)]
pub struct HeadScan {
    at: usize,
    /// The lines with text that were ended; the first is the request line.
    lines: usize,
    /// The line that isn't ended has a byte other than CR.
    has_text: bool,
}

impl HeadScan {
    ghost use Rattle.std.specs.Bool.{OnTrue, OnFalse};
    ghost use Rattle.lg_heads.specs.Lines.{line_step};
    ghost use Rattle.lg_heads.specs.Scanning.{place_of, counted_lines, EndsHead, HasCounted, HasNoHead, HasStopped};

    /// A scan that has looked at nothing.
    pub fn new() -> HeadScan
        ensures counted { (bytes : List ℕ) → HasCounted result bytes }
        ensures none { (bytes : List ℕ) → HasNoHead result bytes }
    {
        HeadScan {
            at: 0,
            lines: 0,
            has_text: false,
        }
    }

    /// How many bytes it has looked at.
    pub fn at(&self) -> usize
        ensures { result ≡ place_of self.now }
    {
        self.at
    }

    /// Goes on through the bytes, up to an empty line behind text or a byte that passes a limit.
    pub fn advance(&mut self, bytes: &[u8]) -> Seen
        requires counted { HasCounted self.old bytes.now }
        requires none { HasNoHead self.old bytes.now }
        ensures counted { HasCounted self.new bytes.now }
        ensures stopped { HasStopped self.new bytes.now result }
        ensures moved { result ≡ Seen.Empty → place_of self.old < place_of self.new }
    {
        'scanning: while self.at < bytes.len() {
            let byte = bytes[self.at];
            if self.is_full(byte) {
                return Seen::Full;
            }
            let ends_head = self.ends_head(byte);
            self.step(byte);
            if ends_head {
                return Seen::Empty;
            }
        }
        Seen::All
    }

    /// Whether this byte would pass a limit.
    fn is_full(&self, byte: u8) -> bool
        requires { self.now.lines ≤ 65 }
        ensures full { OnTrue result ((16384 ≤ self.now.at) ⊎ (64 < (line_step (counted_lines self.now) byte).ended - 1)) }
        ensures room { OnFalse result ((self.now.at < 16384) × ((line_step (counted_lines self.now) byte).ended - 1 ≤ 64)) }
    {
        self.at >= HEAD_BYTES || (byte == b'\n' && self.has_text && self.lines > HEAD_LINES)
    }

    /// Whether this byte ends an empty line behind text.
    fn ends_head(&self, byte: u8) -> bool
        ensures { IsTrue result ↔ EndsHead (counted_lines self.now) byte }
    {
        byte == b'\n' && !self.has_text && self.lines > 0
    }

    /// Takes one more byte into account.
    fn step(&mut self, byte: u8)
        requires bytes { self.old.at < 16384 }
        requires lines { self.old.lines ≤ 65 }
        ensures at { self.new.at ≡ self.old.at + 1 }
        ensures lines { counted_lines self.new ≡ line_step (counted_lines self.old) byte }
    {
        self.at += 1;
        if byte == b'\n' {
            if self.has_text {
                self.lines += 1;
            }
            self.has_text = false;
        } else if byte != b'\r' {
            self.has_text = true;
        }
    }
}
