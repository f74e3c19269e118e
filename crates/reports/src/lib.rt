// TLS reports (RFC 8460): the counts of a day's sessions, and the summary of a report.
#![tactic(auto)]

ghost use Rattle.std.specs.Prelude.{◌≡◌, ◌+◌, ◌<◌, ◌≤◌, leb, length};
ghost use Rattle.writing.specs.Decimal.{decimal};
ghost use Rattle.writing.specs.Over.{over};
ghost use Rattle.reports.specs.Counts.{result_of, count_at, total_of, one_more};
ghost use Rattle.reports.specs.Calls.{most_sessions, report_count_answer, counts_after, summary_text, failures_of, report_summary_answer, report_summary_output};
ghost use Rattle.reports.specs.Steps.{place_in, capped};

use writing::WriteAnswer;

// The refusals.
const NO_VERDICT: u64 = 63;

const TOO_MANY: u64 = 73;

const BAD_SIZE: u64 = 74;

// How many bytes the four counts have.
const COUNTS_SIZE: usize = 32;

// How many sessions are counted in all, at most.
const MOST_SESSIONS: u64 = 1000000000;

// The most bytes that a summary has: two numbers of 9 digits.
const MOST_BYTES: usize = 94;

// The place of the count that a verdict adds to, where it is counted.
#[tactic(auto, using(crate::proofs::Places::place_laws))]
fn place_of(verdict: u64) -> Option<usize>
    ensures { result ≡ place_in (result_of verdict) }
{
    match verdict {
        3..=5 => Some(0),
        22 => Some(1),
        24 => Some(2),
        23 | 25..=28 => Some(3),
        _ => None,
    }
}

// The count at a place.
fn count_at(counts: &[u8], k: usize) -> u64
    requires { (k ≤ 3) × (length counts.now ≡ 32) }
    ensures { result ≡ count_at counts.now k }
{
    let (words, _) = counts.as_chunks::<8>();
    u64::from_be_bytes(words[k])
}

// The sum of two numbers of sessions; one more than the most where it is above that, so that no sum is too large.
#[tactic(auto, using(crate::proofs::CountReturns::plus_is))]
fn plus(a: u64, b: u64) -> u64
    ensures { (result ≡ capped (a + b)) × (result ≤ 1000000001) }
{
    a.saturating_add(b).min(MOST_SESSIONS + 1)
}

// The successes, up to one more than the most.
#[tactic(auto, using(crate::proofs::CountReturns::total_laws))]
fn successes(counts: &[u8]) -> u64
    requires { length counts.now ≡ 32 }
    ensures { (result ≡ capped (count_at counts.now 0)) × (result ≤ 1000000001) }
{
    plus(0, count_at(counts, 0))
}

// The failures, up to one more than the most.
#[tactic(auto, using(crate::proofs::CountReturns::total_laws))]
fn failures(counts: &[u8]) -> u64
    requires { length counts.now ≡ 32 }
    ensures { (result ≡ capped (failures_of counts.now)) × (result ≤ 1000000001) }
{
    plus(
        plus(count_at(counts, 1), count_at(counts, 2)),
        count_at(counts, 3),
    )
}

// The total, up to one more than the most.
#[tactic(auto, using(crate::proofs::CountReturns::total_laws))]
fn total(counts: &[u8]) -> u64
    requires { length counts.now ≡ 32 }
    ensures { (result ≡ capped (total_of counts.now)) × (result ≤ 1000000001) }
{
    plus(successes(counts), failures(counts))
}

// Adds one to the count at a place, where there is room.
fn add_one(counts: &mut [u8], k: usize)
    requires { (k ≤ 3) × (length counts.old ≡ 32) × (total_of counts.old < most_sessions) }
    ensures { counts.new ≡ one_more k counts.old }
{
    let n = count_at(counts, k) + 1;
    writing::put(&numbers::eight_bytes(n), counts, 8 * k);
}

// Counts a session with this verdict: 15, or 63, 74, 73 and the counts as they were.
pub fn report_count(verdict: u64, counts: &mut [u8]) -> WriteAnswer
    ensures value { result ≡ report_count_answer verdict counts.old }
    ensures counts_after { counts.new ≡ counts_after verdict counts.old }
{
    if !verdicts::is_verdict(verdict) {
        return writing::refused(NO_VERDICT);
    }
    if counts.len() != COUNTS_SIZE {
        return writing::refused(BAD_SIZE);
    }
    let n = total(counts);
    if MOST_SESSIONS < n {
        return writing::refused(TOO_MANY);
    }
    let Some(k) = place_of(verdict) else {
        return writing::done(0);
    };
    if MOST_SESSIONS <= n {
        return writing::refused(TOO_MANY);
    }
    add_one(counts, k);
    writing::done(0)
}

// How many digits a number of sessions has.
#[tactic(auto, using(crate::proofs::SummaryReturns::digits_laws))]
fn digits(n: u64) -> usize
    requires { n ≤ most_sessions }
    ensures { (result ≡ length (decimal n)) × (result ≤ 10) }
{
    writing::decimal_length(n)
}

// Whether an output of `room` bytes is enough for the summary. It is measured only where it might not be.
#[tactic(auto, using(crate::proofs::SummaryReturns::fits_laws))]
fn summary_fits(s: u64, f: u64, room: usize) -> bool
    requires { s + f ≤ most_sessions }
    ensures { result ≡ leb (length (summary_text s f)) room }
{
    MOST_BYTES <= room || 76 + digits(s) + digits(f) <= room
}

// Writes a number of sessions in decimal over the output from `at` on, and says how many digits it has.
#[tactic(auto, using(crate::proofs::SummaryReturns::digits_laws))]
fn put_sessions(n: u64, output: &mut [u8], at: usize) -> usize
    requires { n ≤ most_sessions }
    ensures value { (result ≡ length (decimal n)) × (result ≤ 10) }
    ensures output_after { output.new ≡ over at (decimal n) output.old }
{
    writing::put_decimal(n, output, at)
}

// Writes the summary over the front of the output, which has room for it, and says how many bytes it has.
fn write_summary(s: u64, f: u64, output: &mut [u8]) -> usize
    requires { (s + f ≤ most_sessions) × (length (summary_text s f) ≤ length output.old) }
    ensures value { result ≡ length (summary_text s f) }
    ensures output_after { output.new ≡ over 0 (summary_text s f) output.old }
{
    writing::put(
        b"\"summary\":{\"total-successful-session-count\":",
        output,
        0,
    );
    let m = put_sessions(s, output, 44);
    let a = 44 + m;
    writing::put(b",\"total-failure-session-count\":", output, a);
    let n = put_sessions(f, output, a + 31);
    let end = a + 31 + n;
    writing::put(b"}", output, end);
    end + 1
}

// Writes the summary of the counts over the front of the output: 15 and its length, or 74, 73, 83 and the output as it was.
pub fn report_summary(counts: &[u8], output: &mut [u8]) -> WriteAnswer
    ensures value { result ≡ report_summary_answer counts.now (length output.old) }
    ensures output_after { output.new ≡ report_summary_output counts.now output.old }
{
    if counts.len() != COUNTS_SIZE {
        return writing::refused(BAD_SIZE);
    }
    let s = successes(counts);
    let f = failures(counts);
    if MOST_SESSIONS < plus(s, f) {
        return writing::refused(TOO_MANY);
    }
    if !summary_fits(s, f, output.len()) {
        return writing::refused(writing::OUTPUT_SHORT);
    }
    let size = write_summary(s, f, output);
    writing::done(size)
}
