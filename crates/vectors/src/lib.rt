// What the test programs share: a line of the input, the words of 16 hexadecimal digits in it, what a vector asks of an answer, and a tally.
// No contract can say what the input gives or what the output holds.
#![tactic(auto)]

ghost use Rattle.std.specs.Prelude.{◌≡◌, ◌++◌, codes, drop};
ghost use Rattle.std.specs.Float.{binary64};
ghost use Rattle.std.specs.Float.Ieee.{of_bits};
ghost use Rattle.vectors.specs.Words.{first_word};
ghost use Rattle.vectors.specs.Wanted.{is_met};
ghost use Rattle.vectors.specs.Tally.{counted, is_empty, verdict};

use arrayvec::ArrayVec;

const STDIN_FILENO: i32 = 0;

const STDOUT_FILENO: i32 = 1;

// The next N bytes of the input; none where it has fewer.
pub fn read_line<const N: usize>() -> Option<[u8; N]> {
    let mut line = [0; N];
    if io::read_full(STDIN_FILENO, &mut line) < N {
        return None;
    }
    Some(line)
}

// The words that are still to come of a text; past its end each is 0.
#[derive(Clone, Copy)]
pub struct Words<'a> {
    pub text: &'a [u8],
}

impl Words<'_> {
    // The next word. One byte, behind it, is passed over.
    pub fn word(&mut self) -> u64
        ensures value { result ≡ first_word self.old.text.now }
        ensures rest { self.new.text.now ≡ drop 17 self.old.text.now }
    {
        let text = self.text;
        self.text = text.get(17..).unwrap_or(&[]);
        frames::word_of(text).unwrap_or(0)
    }

    // The float whose bits the next word is.
    pub fn float(&mut self) -> f64
        ensures value { result ≡ of_bits binary64 (first_word self.old.text.now) }
        ensures rest { self.new.text.now ≡ drop 17 self.old.text.now }
    {
        frames::float_of(self.word())
    }
}

// Writes a space and 16 hexadecimal digits in upper case, in one write. No `Display`, nor one for `Tally`: the test programs write through crate `io`, and std
// prints a `Display` with the runtime's handle.
pub fn print_word(n: u64) {
    let mut text = [b' '; 17];
    text[1..].copy_from_slice(&frames::digits_of(n));
    io::write_all(STDOUT_FILENO, &text);
}

// What a vector asks of an answer: the same bits, a distance of at most the tolerance, or a value from low to high, ends included.
#[derive(Clone, Copy)]
pub enum Wanted {
    Bits(u64),
    Near { value: f64, tolerance: f64 },
    Within { low: f64, high: f64 },
}

impl Wanted {
    #[tactic(auto, using(limits::proofs::Float::abs))]
    pub fn is_met(self, got: f64) -> bool
        ensures { result ≡ is_met self got }
    {
        match self {
            Wanted::Bits(bits) => frames::bits_of(got) == bits,
            Wanted::Near { value, tolerance } => (got - value).abs() <= tolerance,
            Wanted::Within { low, high } => low <= got && got <= high,
        }
    }
}

// The word for an answer that agrees, and for one that does not.
pub fn verdict(agrees: bool) -> &'static [u8]
    ensures { result.now ≡ verdict agrees }
{
    if agrees { b"ok" } else { b"MISMATCH" }
}

// The end of a vector's line, for one write: a space, the verdict and a line feed.
pub fn line_end(agrees: bool) -> ArrayVec<u8, 10>
    ensures { result.items ≡ codes " " ++ verdict agrees ++ codes "\n" }
{
    let mut text = ArrayVec::new();
    text.push(b' ');
    text.try_extend_from_slice(verdict(agrees)).unwrap();
    text.push(b'\n');
    text
}

// How many answers agreed, and how many did not.
#[derive(Clone, Copy, Default)]
pub struct Tally {
    pub right: u64,
    pub wrong: u64,
}

impl Tally {
    pub fn count(&mut self, agrees: bool)
        ensures { self.new ≡ counted self.old agrees }
    {
        if agrees {
            self.right = self.right.saturating_add(1);
        } else {
            self.wrong = self.wrong.saturating_add(1);
        }
    }

    pub fn is_empty(&self) -> bool
        ensures { result ≡ is_empty self.now }
    {
        self.right == 0 && self.wrong == 0
    }

    pub fn print(&self) {
        io::print_decimal(STDOUT_FILENO, self.right);
        io::write_all(STDOUT_FILENO, b" ok, ");
        io::print_decimal(STDOUT_FILENO, self.wrong);
        io::write_all(STDOUT_FILENO, b" MISMATCH\n");
    }
}
