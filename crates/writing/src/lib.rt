// What the calls share that write into lent memory: texts and numbers in decimal at a place, and the answer.
#![tactic(auto)]

ghost use Rattle.std.specs.Prelude.{◌≡◌, ◌<◌, [], ◌∷◌, length};
ghost use Rattle.writing.specs.Answer.{refusal, success};
ghost use Rattle.writing.specs.Decimal.{digit, decimal};
ghost use Rattle.writing.specs.Over.{over};

// The refusal of an output that is too short, as C reads it (the C interface).
pub const OUTPUT_SHORT: u64 = 83;

// The answer of a call that writes: 15 with the length that it wrote to its output, 0 where it has none; or a refusal and zero.
#[repr(C)]
#[derive(Clone, Copy)]
pub struct WriteAnswer {
    pub number: u64,
    pub length: u64,
}

// The answer of a call that is refused.
pub fn refused(number: u64) -> WriteAnswer
    ensures { result ≡ refusal number }
{
    WriteAnswer { number, length: 0 }
}

// The answer of a call that wrote so many bytes.
pub fn done(n: usize) -> WriteAnswer
    ensures { result ≡ success n }
{
    WriteAnswer {
        number: 15,
        length: n as u64,
    }
}

// Writes the text over the output from `at` on; where it does not fit, the output is left as it was.
#[tactic(auto, using(crate::proofs::Over::put_laws))]
pub fn put(text: &[u8], output: &mut [u8], at: usize)
    ensures { output.new ≡ over at text.now output.old }
{
    if output.len() < at {
        return;
    }
    lists::write_front(text, &mut output[at..]);
}

// How many digits a number has.
pub fn decimal_length(n: u64) -> usize
    ensures { result ≡ length (decimal n) }
{
    n.max(1).ilog10() as usize + 1
}

// The digit of a number below ten.
fn digit_of(n: u64) -> u8
    requires { n < 10 }
    ensures { result ≡ digit n }
{
    b'0' + n as u8
}

// Writes one byte over the output at a place, where there is one.
fn put_byte(b: u8, output: &mut [u8], at: usize)
    ensures { output.new ≡ over at (b ∷ []) output.old }
{
    put(&[b], output, at);
}

// Writes a number in decimal over the output from `at` on, its last digit first, and says how many digits it has; where they do not fit, the output is left as it was.
pub fn put_decimal(n: u64, output: &mut [u8], at: usize) -> usize
    ensures value { result ≡ length (decimal n) }
    ensures output_after { output.new ≡ over at (decimal n) output.old }
{
    let size = decimal_length(n);
    if output.len().saturating_sub(at) < size {
        return size;
    }
    let mut rest = n;
    for k in (1..size).rev() {
        put_byte(digit_of(rest % 10), output, at + k);
        rest /= 10;
    }
    put_byte(digit_of(rest), output, at);
    size
}
