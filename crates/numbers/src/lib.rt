// Numbers of a case file (document 01, "The case file"): "Numbers in groups of seven bits, low group first, high bit set on all but the last byte,
// at most five bytes, shortest form only."
#![tactic(auto)]

ghost use Rattle.std.specs.Prelude.{◌≡◌};
ghost use Rattle.numbers.specs.Numbers.{number_at, number_in, signed_of};

// A number that stands at a place of a file, and the place after it.
#[derive(Clone, Copy, Debug, PartialEq, Eq, Drop)]
pub struct Number {
    pub value: u64,
    pub next: usize,
}

// Why no number stands there.
#[derive(Clone, Copy, Debug, PartialEq, Eq, Drop)]
pub enum NumberError {
    // 1: a file "ends where a byte is still needed".
    Ended,
    // 2: "a number is longer than its shortest form, or a fifth byte has its high bit set".
    TooLong,
}

// "at most five bytes"
const MOST_BYTES: usize = 5;

// The number whose first byte is at a place. After the first byte a last byte of 0 is one too many.
#[tactic(auto, using(crate::proofs::NumbersLaws::ended, crate::proofs::NumbersLaws::long, crate::proofs::NumbersLaws::spent))]
fn number_at(file: &[u8], at: usize) -> Result<Number, NumberError>
    ensures { number_in result ≡ number_at file.now at }
{
    let mut value = 0;
    let mut next = at;
    for group in 0..MOST_BYTES {
        let Some(byte) = file.get(next) else {
            return Err(NumberError::Ended);
        };
        next += 1;
        value += u64::from(*byte % 128) << (7 * group);
        if *byte < 128 {
            if *byte == 0 && 0 < group {
                return Err(NumberError::TooLong);
            }
            return Ok(Number { value, next });
        }
    }
    Err(NumberError::TooLong)
}

// The signed number that is sent as n: "2n for n ≥ 0 and -2n-1 below zero".
#[tactic(auto, using(crate::proofs::NumbersLaws::less_one), unfolding(crate::specs::Numbers::signed_of))]
pub fn signed(n: u64) -> i64
    ensures { result ≡ signed_of n }
{
    let half = (n / 2) as i64;
    if n % 2 == 0 { half } else { -1 - half }
}

// "The number reader keeps the lent file and its place."
#[derive(Clone, Copy)]
pub struct Reader<'a> {
    pub file: &'a [u8],
    pub at: usize,
}

impl<'a> Reader<'a> {
    // A reader at a place of a file.
    pub fn at(file: &'a [u8], at: usize) -> Reader<'a>
        ensures { (result.file ≡ file.entry) × (result.at ≡ at) }
    {
        Reader { file, at }
    }

    // The number at the reader's place. The answer has the place after it; the reader stays where it is.
    pub fn next(self) -> Result<Number, NumberError>
        ensures { number_in result ≡ number_at self.entry.file.now self.entry.at }
    {
        number_at(self.file, self.at)
    }
}

// The number at a place of a file, for whoever holds no reader.
pub fn read_number(file: &[u8], at: usize) -> Result<Number, NumberError>
    ensures { number_in result ≡ number_at file.now at }
{
    Reader::at(file, at).next()
}
