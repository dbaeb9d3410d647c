//! The cutting of a line into words, byte by byte.

ghost use Rattle.std.specs.Prelude.{◌≡◌, ◌≤◌, ◌∷◌, ◌++◌, [], List, ℕ};
ghost use Rattle.rescue_map.specs.Lines.{is_blank};

use crate::spelling::read_word;
use crate::words::LineWords;

/// A space or a tab.
fn is_blank(byte: u8) -> bool
    ensures { result ≡ is_blank byte }
{
    byte == b' ' || byte == b'\t'
}

/// A line so far: the words that are over, the first bytes of the one that has begun, whether a comment has begun, and
/// whether a carriage return is held back, since a newline may come behind it.
#[derive(Clone, Copy)]
pub struct Scan {
    pub words: LineWords,
    pub begun: [u8; 32],
    pub len: usize,
    pub comment: bool,
    pub held: bool,
    ghost within: { len ≤ 32 },
}

impl Scan {
    ghost use Rattle.rescue_map.specs.Lines.{begun_word, content_of, words_of};
    ghost use Rattle.rescue_map.specs.Scanning.{AreWords, Cut, IsBegun, Scanned};

    /// No byte of a line.
    pub fn new() -> Scan
        ensures { Scanned result [] }
    {
        Scan {
            words: LineWords::new(),
            begun: [0; 32],
            len: 0,
            comment: false,
            held: false,
        }
    }

    /// The word that has begun is over.
    fn close(&mut self)
        ensures words { (over : List (List ℕ)) (begun : List ℕ) → AreWords self.old.words over →
            IsBegun self.old begun → AreWords self.new.words (over ++ begun_word begun) }
        ensures len { self.new.len ≡ 0 }
        ensures comment { self.new.comment ≡ self.old.comment }
    {
        if self.len > 0 {
            let scan = &*self;
            let word = read_word(&scan.begun[..scan.len]);
            self.words.push(word);
            self.len = 0;
        }
    }

    /// A byte more of the word that has begun.
    fn keep(&mut self, byte: u8)
        ensures begun { (begun : List ℕ) → IsBegun self.old begun → IsBegun self.new (begun ++ byte ∷ []) }
        ensures words { self.new.words ≡ self.old.words }
        ensures comment { self.new.comment ≡ self.old.comment }
    {
        if self.len < 32 {
            self.begun[self.len] = byte;
            self.len += 1;
        }
    }

    /// A byte more is cut.
    fn push(&mut self, byte: u8)
        ensures { (bytes : List ℕ) → Cut self.old bytes → Cut self.new (bytes ++ byte ∷ []) }
    {
        if self.comment {
            return;
        }
        if is_blank(byte) {
            self.close();
        } else if byte == b'#' && self.len == 0 {
            self.comment = true;
        } else {
            self.keep(byte);
        }
    }

    /// A carriage return that was held back is cut, too.
    fn release(&mut self)
        ensures { (line : List ℕ) → Scanned self.old line → Cut self.new line }
    {
        if self.held {
            self.push(b'\r');
        }
    }

    /// A byte more, which is no newline.
    pub fn take(&mut self, byte: u8)
        ensures { (line : List ℕ) → Scanned self.old line → Scanned self.new (line ++ byte ∷ []) }
    {
        self.release();
        if byte == b'\r' {
            self.held = true;
        } else {
            self.push(byte);
            self.held = false;
        }
    }

    /// The line is over: by a newline, or else by the end of the text.
    fn settle(&mut self, ended: bool)
        ensures { (line : List ℕ) → Scanned self.old line →
            Cut self.new (content_of record { bytes = line; ended = ended }) }
    {
        if !ended {
            self.release();
        }
    }

    /// The words of the line, which is over: by a newline, or else by the end of the text.
    pub fn finish(mut self, ended: bool) -> LineWords
        ensures { (line : List ℕ) → Scanned self line →
            AreWords result (words_of record { bytes = line; ended = ended }) }
    {
        self.settle(ended);
        self.close();
        self.words
    }
}
