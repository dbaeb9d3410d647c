//! The numbers of a line.

ghost use Rattle.std.specs.Prelude.{◌≡◌, ◌≤◌, ◌<◌, ◌^◌, [], IfSome, None};
ghost use Rattle.rescue_map.specs.Lines.{is_blank};
ghost use Rattle.rescue_map.specs.Spelling.{digit_value};
ghost use Rattle.dump_spec.specs.Lists.{line_numbers, numbers_of, words_from};
ghost use Rattle.dump_lists.specs.Numbers.{kept, pushed};

/// The numbers of a line: none, one or two; or a line that is at fault, or has more than two, which no list takes.
#[derive(Clone, Copy)]
pub enum Numbers {
    Nothing,
    One { first: u32 },
    Two { first: u32, second: u32 },
    Bad,
}

/// The most bytes of a line.
const LONGEST: usize = 31;

/// The most digits of a number.
const DIGITS: u8 = 9;

/// A space or a tab.
fn is_blank(byte: u8) -> bool
    ensures { result ≡ is_blank byte }
{
    byte == b' ' || byte == b'\t'
}

/// What a decimal digit counts.
fn digit(byte: u8) -> Option<u32>
    ensures digit { IfSome result (λ d. (d ≡ digit_value byte) × (d < 10)) }
    ensures other { result ≡ None → 10 ≤ digit_value byte }
{
    match byte {
        b'0'..=b'9' => Some(u32::from(byte - b'0')),
        _ => None,
    }
}

/// A number more.
fn push(numbers: Numbers, number: u32) -> Numbers
    ensures { result ≡ pushed numbers number }
{
    match numbers {
        Numbers::Nothing => Numbers::One { first: number },
        Numbers::One { first } => Numbers::Two {
            first,
            second: number,
        },
        _ => Numbers::Bad,
    }
}

/// A line so far: its numbers that are over, and the value and the digits of the one that has begun.
#[derive(Clone, Copy)]
pub struct Scan {
    pub numbers: Numbers,
    pub value: u32,
    pub digits: u8,
    ghost few: { digits ≤ 9 },
    ghost small: { value < 10 ^ digits },
}

impl Scan {
    ghost use Rattle.std.specs.Prelude.{List, ℕ, ◌++◌};
    ghost use Rattle.rescue_map.specs.Lines.{begun_word};
    ghost use Rattle.dump_lists.specs.Numbers.{behind_words};
    ghost use Rattle.dump_lists.specs.Scanning.{IsBegun, Moves};

    /// The number that has begun is over.
    fn close(&mut self)
        ensures closed { (begun : List ℕ) (words : List (List ℕ)) → IsBegun self.old begun →
            behind_words self.old.numbers (begun_word begun ++ words) ≡ behind_words self.new.numbers words }
        ensures begun { IsBegun self.new [] }
    {
        if self.digits > 0 {
            *self = Scan {
                numbers: push(self.numbers, self.value),
                value: 0,
                digits: 0,
            };
        }
    }

    /// A byte more.
    fn take(&mut self, byte: u8)
        ensures { (begun : List ℕ) → IsBegun self.old begun → Moves self.old self.new byte begun }
    {
        if is_blank(byte) {
            self.close();
            return;
        }
        match digit(byte) {
            Some(digit) if self.digits < DIGITS => {
                self.value = 10 * self.value + digit;
                self.digits += 1;
            }
            _ => {
                *self = Scan {
                    numbers: Numbers::Bad,
                    value: 0,
                    digits: 0,
                };
            }
        }
    }
}

/// The numbers that the words of a line are.
fn read_words(line: &[u8]) -> Numbers
    ensures { result ≡ kept (numbers_of (words_from [] line.now)) }
{
    let mut scan = Scan {
        numbers: Numbers::Nothing,
        value: 0,
        digits: 0,
    };
    for byte in line {
        scan.take(*byte);
    }
    scan.close();
    scan.numbers
}

/// The numbers of a line, without its newline and the carriage return before that.
pub fn read_numbers(line: &[u8]) -> Numbers
    ensures { result ≡ kept (line_numbers line.now) }
{
    if line.len() > LONGEST {
        return Numbers::Bad;
    }
    if !line.is_empty() && line[0] == b'#' {
        return Numbers::Nothing;
    }
    read_words(line)
}
