// What a domain publishes (RFC 8461, 3.1 and 3.2): the TXT text and the policy body, and rewriting a body.
#![tactic(auto)]

ghost use Rattle.std.specs.Prelude.{◌≡◌, true, ◌+◌, ◌≤◌, [], ◌∷◌, ◌++◌, List, ℕ, leb, length};
ghost use Rattle.lists.specs.Bytes.{all};
ghost use Rattle.lists.specs.Check.{Check};
ghost use Rattle.lists.specs.Text.{text};
ghost use Rattle.numbers.specs.Numbers.{numbers};
ghost use Rattle.numbers.specs.Pieces.{pieces_in};
ghost use Rattle.names.specs.Name.{is_pattern};
ghost use Rattle.policies.specs.Lines.{LF};
ghost use Rattle.policies.specs.Paper.{mode_text};
ghost use Rattle.writing.specs.Over.{over};
ghost use Rattle.writing.specs.Answer.{refusal, write_answer, write_output};
ghost use Rattle.writing.specs.Decimal.{decimal};
ghost use Rattle.publish.specs.Texts.{field_line, mx_lines};
ghost use Rattle.publish.specs.Calls.{write_txt_answer, write_txt_output, count_fits, patterns_fit, policy_checks, policy_of, write_policy_answer, write_policy_output, rewrite_checks, rewritten, rewrite_answer, rewrite_output};
ghost use Rattle.publish.specs.Patterns.{patterns_in};
ghost use Rattle.publish.specs.Steps.{head_text, age_line, number_of, moded, bytes_of, agrees};

mod body;

use crate::body::{MxLines, Patterns, Policy};
use numbers::Pieces;
use policies::Mode;
use writing::WriteAnswer;

// Why a call is refused. A body that is no policy has the number of its reader.
#[derive(Clone, Copy)]
pub enum Refusal {
    BadMode,
    BadId,
    BadPatterns,
    BadLifetime,
    OutputShort,
    BadBody(u64),
}

impl From<Refusal> for u64 {
    ghost from_gives = { λ r n. n ≡ number_of r };

    #[tactic(auto, unfolding(crate::specs::Steps::number_of))]
    fn from(r: Refusal) -> u64 {
        match r {
            Refusal::BadMode => 67,
            Refusal::BadId => 80,
            Refusal::BadPatterns => 81,
            Refusal::BadLifetime => 82,
            Refusal::OutputShort => writing::OUTPUT_SHORT,
            Refusal::BadBody(number) => number,
        }
    }
}

// The answer of a call that is refused.
fn refused(r: Refusal) -> WriteAnswer
    ensures { result ≡ refusal (number_of r) }
{
    writing::refused(u64::from(r))
}

// The most patterns of a policy that is written.
const MOST_PATTERNS: usize = 16;

// The most bytes that it has: 16 patterns of 255 bytes, and a lifetime of 8 digits.
const MOST_BYTES: usize = 4207;

// Writes the TXT text of an id over the front of the output: 15 and its length, or 80, 83 and the output as it was.
#[tactic(auto, using(crate::proofs::TxtReturns::txt_laws))]
pub fn write_txt(id: &[u8], output: &mut [u8]) -> WriteAnswer
    ensures value { result ≡ write_txt_answer id.now (length output.old) }
    ensures output_after { output.new ≡ write_txt_output id.now output.old }
{
    if !txt::is_id(id) {
        return refused(Refusal::BadId);
    }
    let end = id.len() + 12;
    if output.len() <= end {
        return refused(Refusal::OutputShort);
    }
    writing::put(b"v=STSv1; id=", output, 0);
    writing::put(id, output, 12);
    writing::put(b";", output, end);
    writing::done(end + 1)
}

// Writes the mx line of a pattern from `at` on, and says where it ends.
#[tactic(auto, using(crate::proofs::PolicyReturns::mx_line_laws))]
fn write_mx(pattern: &[u8], output: &mut [u8], at: usize) -> usize
    requires { at + (length pattern.now + 5) ≤ length output.old }
    ensures value { result ≡ at + length (field_line (text "mx") pattern.now) }
    ensures output_after { output.new ≡ over at (field_line (text "mx") pattern.now) output.old }
{
    let start = at + 4;
    let end = start + pattern.len();
    writing::put(b"mx: ", output, at);
    writing::put(pattern, output, start);
    writing::put(b"\n", output, end);
    end + 1
}

// The value of the line of the mode, and its LF.
#[tactic(auto, unfolding(policies::specs::Paper::mode_text))]
fn mode_line(mode: Mode) -> &'static [u8]
    ensures { result.now ≡ mode_text mode ++ (LF ∷ []) }
{
    match mode {
        Mode::Enforce => b"enforce\n",
        Mode::Testing => b"testing\n",
        Mode::None => b"none\n",
    }
}

// Writes the lines before the mx lines over the front of the output, and says where they end.
fn write_head(mode: Mode, output: &mut [u8]) -> usize
    requires { length (head_text mode) ≤ length output.old }
    ensures value { result ≡ length (head_text mode) }
    ensures output_after { output.new ≡ over 0 (head_text mode) output.old }
{
    let line = mode_line(mode);
    writing::put(b"version: STSv1\nmode: ", output, 0);
    writing::put(line, output, 21);
    21 + line.len()
}

// Writes the line of the lifetime from `at` on, and says where it ends.
#[tactic(auto, using(crate::proofs::PolicyReturns::write_age_laws))]
fn write_age(lifetime: u64, output: &mut [u8], at: usize) -> usize
    requires { at + (10 + length (decimal lifetime)) ≤ length output.old }
    ensures value { result ≡ at + length (age_line lifetime) }
    ensures output_after { output.new ≡ over at (age_line lifetime) output.old }
{
    let start = at + 9;
    writing::put(b"max_age: ", output, at);
    let size = writing::put_decimal(lifetime, output, start);
    let end = start + size;
    writing::put(b"\n", output, end);
    end + 1
}

// Writes the mx lines from `at` on, and says where they end.
fn write_patterns(patterns: Patterns<'_>, output: &mut [u8], at: usize) -> usize
    requires { at + length (mx_lines (patterns_in patterns)) ≤ length output.old }
    ensures value { result ≡ at + length (mx_lines (patterns_in patterns.entry)) }
    ensures output_after { output.new ≡ over at (mx_lines (patterns_in patterns.entry)) output.old }
{
    let mut to = at;
    for pattern in patterns {
        to = write_mx(pattern, output, to);
    }
    to
}

// How many bytes the mx lines have.
fn mx_length(patterns: Patterns<'_>) -> usize
    requires { length (mx_lines (patterns_in patterns)) ≤ 4207 }
    ensures { result ≡ length (mx_lines (patterns_in patterns.entry)) }
{
    let mut n = 0;
    for pattern in patterns {
        n += 5 + pattern.len();
    }
    n
}

impl<'a> Policy<'a> {
    // How many bytes the body has.
    fn size(self) -> usize
        ensures { result ≡ length (bytes_of self.entry) }
    {
        let head = 21 + mode_line(self.mode).len();
        head + mx_length(self.patterns) + (10 + writing::decimal_length(self.lifetime))
    }

    // Whether an output of `room` bytes is enough for the body. It is measured only where it might not be.
    fn fits(self, room: usize) -> bool
        ensures { result ≡ leb (length (bytes_of self.entry)) room }
    {
        MOST_BYTES <= room || self.size() <= room
    }

    // Writes the body over the front of the output, which has room for it, and says how long it is.
    fn write(self, output: &mut [u8]) -> usize
        requires { length (bytes_of self) ≤ length output.old }
        ensures value { result ≡ length (bytes_of self.entry) }
        ensures output_after { output.new ≡ over 0 (bytes_of self.entry) output.old }
    {
        let head = write_head(self.mode, output);
        let end = write_patterns(self.patterns, output, head);
        write_age(self.lifetime, output, end)
    }
}

// Writes a policy that was not refused, where the output has room for it.
fn written(policy: Result<Policy<'_>, Refusal>, output: &mut [u8]) -> WriteAnswer
    ensures value { (checks : List Check) (t : List ℕ) → agrees policy.entry checks t → result ≡ write_answer checks t (length output.old) }
    ensures output_after { (checks : List Check) (t : List ℕ) → agrees policy.entry checks t → output.new ≡ write_output checks t output.old }
{
    let policy = match policy {
        Ok(policy) => policy,
        Err(r) => return refused(r),
    };
    if !policy.fits(output.len()) {
        return refused(Refusal::OutputShort);
    }
    writing::done(policy.write(output))
}

// The mode of a number.
#[tactic(auto, unfolding(crate::specs::Steps::moded))]
fn mode_of(mode: u64) -> Result<Mode, Refusal>
    ensures { result ≡ moded mode }
{
    match mode {
        policies::ENFORCE => Ok(Mode::Enforce),
        policies::TESTING => Ok(Mode::Testing),
        policies::NONE => Ok(Mode::None),
        _ => Err(Refusal::BadMode),
    }
}

// Whether so many patterns may be written for the mode.
#[tactic(auto, unfolding(crate::specs::Calls::count_fits))]
fn count_fits(mode: Mode, n: usize) -> bool
    ensures { result ≡ count_fits mode n }
{
    match mode {
        Mode::Enforce | Mode::Testing => 1 <= n && n <= MOST_PATTERNS,
        Mode::None => n <= MOST_PATTERNS,
    }
}

// Whether each piece is a pattern.
#[tactic(auto, using(lists::proofs::Items::all_items))]
fn all_patterns(pieces: Pieces<'_>) -> bool
    ensures { result ≡ all is_pattern (pieces_in pieces.entry) }
{
    for p in pieces {
        if !names::is_pattern(p) {
            return false;
        }
    }
    true
}

// Whether the patterns may be written for the mode. A pattern has at most 255 bytes, which is asked of the lengths before the bytes are read.
#[tactic(auto, using(crate::proofs::PolicyReturns::fit_laws))]
fn patterns_fit(mode: Mode, pieces: Pieces<'_>) -> bool
    ensures { result ≡ patterns_fit mode pieces.entry.bytes.now pieces.entry.lengths.now }
{
    if !numbers::fits(pieces.lengths, pieces.bytes.len(), 255) {
        return false;
    }
    count_fits(mode, numbers::count(pieces.lengths)) && all_patterns(pieces)
}

// The policy of a mode, a lifetime and patterns.
fn given<'a>(
    mode: u64,
    lifetime: u64,
    patterns: &'a [u8],
    lengths: &'a [u8],
) -> Result<Policy<'a>, Refusal>
    ensures { agrees result (policy_checks mode lifetime patterns.now lengths.now) (policy_of mode lifetime patterns.now lengths.now) }
{
    let mode = mode_of(mode)?;
    let pieces = Pieces {
        bytes: patterns,
        lengths,
    };
    if !patterns_fit(mode, pieces) {
        return Err(Refusal::BadPatterns);
    }
    if clock::LONGEST_LIFETIME < lifetime {
        return Err(Refusal::BadLifetime);
    }
    Ok(Policy {
        mode,
        lifetime,
        patterns: Patterns::Given(pieces),
    })
}

// Writes a policy body over the front of the output: 15 and its length, or 67, 81, 82, 83 and the output as it was.
pub fn write_policy(
    mode: u64,
    lifetime: u64,
    patterns: &[u8],
    lengths: &[u8],
    output: &mut [u8],
) -> WriteAnswer
    ensures value { result ≡ write_policy_answer mode lifetime patterns.now lengths.now (length output.old) }
    ensures output_after { output.new ≡ write_policy_output mode lifetime patterns.now lengths.now output.old }
{
    written(given(mode, lifetime, patterns, lengths), output)
}

// The policy that a body says, with its mode, lifetime and patterns and no other field.
fn kept(body: &[u8]) -> Result<Policy<'_>, Refusal>
    ensures { agrees result (rewrite_checks body.now) (rewritten body.now) }
{
    let read = policies::read_policy(body);
    if read.number != policies::ACCEPTED {
        return Err(Refusal::BadBody(read.number));
    }
    if (MOST_PATTERNS as u64) < read.mx_count {
        return Err(Refusal::BadPatterns);
    }
    let mode = mode_of(read.mode)?;
    Ok(Policy {
        mode,
        lifetime: read.lifetime,
        patterns: Patterns::Kept(MxLines { body }),
    })
}

// Rewrites a policy body, with its mode, lifetime and patterns and no other field: 15 and the length, or 50, 53 to 57, 52, 81, 83 and the output as it was.
pub fn rewrite_policy(body: &[u8], output: &mut [u8]) -> WriteAnswer
    ensures value { result ≡ rewrite_answer body.now (length output.old) }
    ensures output_after { output.new ≡ rewrite_output body.now output.old }
{
    written(kept(body), output)
}
