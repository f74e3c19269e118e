// The policy body (RFC 8461, 3.2).
#![tactic(auto)]

ghost use Rattle.std.specs.Prelude.{◌≡◌, ℕ, List, true, ◌||◌, ◌+◌, ◌<◌, ◌≤◌, length, drop};
ghost use Rattle.lists.specs.Bytes.{all, is_bytes};
ghost use Rattle.lists.specs.Span.{span_of};
ghost use Rattle.lists.specs.Split.{index_of};
ghost use Rattle.lists.specs.Text.{text};
ghost use Rattle.lists.specs.Words.{number_of, marks};
ghost use Rattle.names.specs.Name.{some_matches};
ghost use Rattle.fields.specs.Name.{has_name, field_at};
ghost use Rattle.policies.specs.Texts.{printable, is_text};
ghost use Rattle.policies.specs.Fields.{mode_of, age_of, is_named, value_of};
ghost use Rattle.policies.specs.Policy.{mode_number, cause_number, refused_at, refused, fault_answer, policy_answer, patterns_of, policy_for};
ghost use Rattle.policies.specs.Reader.{stripped_value, text_end, line_to, line_at, kind_of, held, take_version, take_mode, take_age, take_mx, take_field, take_line, turn_at, checked, enough, accepted, seen_answer, for_host};

use names::Pattern;

mod utf8;

// The answer numbers, by which C reads them (the C interface).
pub const ACCEPTED: u64 = 7;

pub const TOO_LONG: u64 = 50;

pub const INCOMPLETE: u64 = 52;

pub const BAD_LINE: u64 = 53;

pub const BAD_VERSION: u64 = 54;

pub const BAD_MODE: u64 = 55;

pub const BAD_MAX_AGE: u64 = 56;

pub const BAD_MX: u64 = 57;

// The numbers of the modes, by which C reads them (the C interface).
pub const ENFORCE: u64 = 1;

pub const TESTING: u64 = 2;

pub const NONE: u64 = 3;

// The most bytes of a body.
pub const LONGEST_BODY: usize = 65536;

// The answer to a policy body: on 7 its mode, its lifetime in seconds and the count of its mx lines; on 53 to 57 the first line that offends, counted from 1,
// and the place where it begins. All else is zero.
#[repr(C)]
#[derive(Clone, Copy)]
pub struct PolicyAnswer {
    pub number: u64,
    pub mode: u64,
    pub lifetime: u64,
    pub mx_count: u64,
    pub line: u64,
    pub offset: u64,
}

// The answer to a policy body, and whether the body is accepted and one of its patterns matches a host.
#[derive(Clone, Copy)]
pub struct PolicyFor {
    pub answer: PolicyAnswer,
    pub listed: bool,
}

// The mode of a policy.
#[derive(Clone, Copy)]
pub enum Mode {
    Enforce,
    Testing,
    None,
}

// Its number.
impl From<Mode> for u64 {
    ghost from_gives = { λ m n. n ≡ mode_number m };

    #[tactic(auto, unfolding(crate::specs::Policy::mode_number))]
    fn from(mode: Mode) -> u64 {
        match mode {
            Mode::Enforce => ENFORCE,
            Mode::Testing => TESTING,
            Mode::None => NONE,
        }
    }
}

// What is wrong with a line: its form, or what its field holds.
#[derive(Clone, Copy)]
pub enum Cause {
    Form,
    Version,
    Mode,
    MaxAge,
    Mx,
}

// Its number.
impl From<Cause> for u64 {
    ghost from_gives = { λ c n. n ≡ cause_number c };

    #[tactic(auto, unfolding(crate::specs::Policy::cause_number))]
    fn from(cause: Cause) -> u64 {
        match cause {
            Cause::Form => BAD_LINE,
            Cause::Version => BAD_VERSION,
            Cause::Mode => BAD_MODE,
            Cause::MaxAge => BAD_MAX_AGE,
            Cause::Mx => BAD_MX,
        }
    }
}

// The first fault of a body: its cause, its line, counted from 1, and the place where that line begins.
#[derive(Clone, Copy)]
pub struct Fault {
    pub cause: Cause,
    pub line: u64,
    pub offset: u64,
}

// The fields that are read, by their names.
#[derive(Clone, Copy)]
enum Kind {
    Version,
    Mode,
    MaxAge,
    Mx,
    Other,
}

// The fields seen so far: the first of each name counts.
#[derive(Clone, Copy)]
struct Seen {
    version: bool,
    mode: Option<Mode>,
    age: Option<u64>,
}

// A host that patterns are held against, and whether one has listed it already.
#[derive(Clone, Copy)]
struct Wanted<'a> {
    host: &'a [u8],
    listed: bool,
}

// What a line without a fault does: it leaves these fields; or it has a pattern, which says whether the host is listed from there on.
#[derive(Clone, Copy)]
enum Step {
    Next(Seen),
    Pattern(bool),
}

// A whole body without a fault: its fields, the count of its patterns and whether the host is listed.
#[derive(Clone, Copy)]
struct Checked {
    seen: Seen,
    patterns: u64,
    listed: bool,
}

// The kind of a field, by its name.
#[tactic(auto, unfolding(crate::specs::Reader::kind_of))]
fn kind_of(name: &[u8]) -> Kind
    ensures { result ≡ kind_of name.now }
{
    if lists::equal(name, b"mx") {
        return Kind::Mx;
    }
    if lists::equal(name, b"version") {
        return Kind::Version;
    }
    if lists::equal(name, b"mode") {
        return Kind::Mode;
    }
    if lists::equal(name, b"max_age") {
        return Kind::MaxAge;
    }
    Kind::Other
}

// The mode that a value names.
#[tactic(auto, unfolding(crate::specs::Reader::held, crate::specs::Fields::mode_of))]
fn mode_of(v: &[u8]) -> Option<Mode>
    ensures { result ≡ held (mode_of v.now) }
{
    if lists::equal(v, b"enforce") {
        return Some(Mode::Enforce);
    }
    if lists::equal(v, b"testing") {
        return Some(Mode::Testing);
    }
    if lists::equal(v, b"none") {
        return Some(Mode::None);
    }
    None
}

// The max_age that 1 to 10 digits write.
#[tactic(auto, using(crate::proofs::Values::age_laws))]
fn age_of(v: &[u8]) -> Option<u64>
    ensures { result ≡ held (age_of v.now) }
{
    if v.len() < 1 {
        return None;
    }
    if 10 < v.len() {
        return None;
    }
    let mut age: u64 = 0;
    for b in v {
        if !b.is_ascii_digit() {
            return None;
        }
        age = age * 10 + u64::from(*b - b'0');
    }
    Some(age)
}

// The first version must be `STSv1`; later ones are not looked at.
#[tactic(auto, unfolding(crate::specs::Reader::take_version, crate::specs::Fields::is_version))]
fn take_version(seen: Seen, v: &[u8]) -> Result<Step, Cause>
    ensures { result ≡ take_version seen v.now }
{
    if seen.version {
        return Ok(Step::Next(seen));
    }
    if !lists::equal(v, b"STSv1") {
        return Err(Cause::Version);
    }
    Ok(Step::Next(Seen {
        version: true,
        ..seen
    }))
}

// The first mode must be a mode; later ones are not looked at.
#[tactic(auto, unfolding(crate::specs::Reader::take_mode, crate::specs::Reader::new_mode, crate::specs::Reader::holds))]
fn take_mode(seen: Seen, v: &[u8]) -> Result<Step, Cause>
    ensures { result ≡ take_mode seen v.now }
{
    if seen.mode.is_some() {
        return Ok(Step::Next(seen));
    }
    let mode = mode_of(v).ok_or(Cause::Mode)?;
    Ok(Step::Next(Seen {
        mode: Some(mode),
        ..seen
    }))
}

// The first max_age must be a max_age; later ones are not looked at. It stands beside `take_mode`: one function for both would take a field to get, a field to set, a reader and
// a cause, and be no plainer.
#[tactic(auto, unfolding(crate::specs::Reader::take_age, crate::specs::Reader::new_age, crate::specs::Reader::holds))]
fn take_age(seen: Seen, v: &[u8]) -> Result<Step, Cause>
    ensures { result ≡ take_age seen v.now }
{
    if seen.age.is_some() {
        return Ok(Step::Next(seen));
    }
    let age = age_of(v).ok_or(Cause::MaxAge)?;
    Ok(Step::Next(Seen {
        age: Some(age),
        ..seen
    }))
}

// Every mx must be a pattern. Where the host is listed already, it is not asked for again.
#[tactic(auto, using(crate::proofs::Takes::mx_laws))]
fn take_mx(v: &[u8], wanted: Wanted<'_>) -> Result<Step, Cause>
    ensures { result ≡ take_mx wanted.entry.host.now wanted.entry.listed v.entry.now }
{
    if wanted.listed {
        if names::is_pattern(v) {
            return Ok(Step::Pattern(true));
        }
        return Err(Cause::Mx);
    }
    match names::read_pattern(v, wanted.host) {
        Pattern::Malformed => Err(Cause::Mx),
        Pattern::Matching => Ok(Step::Pattern(true)),
        Pattern::Other => Ok(Step::Pattern(false)),
    }
}

// What a field does to the fields seen so far.
#[tactic(auto, unfolding(crate::specs::Reader::take_field))]
fn take_field(seen: Seen, kind: Kind, v: &[u8], wanted: Wanted<'_>) -> Result<Step, Cause>
    ensures { result ≡ take_field wanted.entry.host.now wanted.entry.listed seen kind v.entry.now }
{
    match kind {
        Kind::Version => take_version(seen, v),
        Kind::Mode => take_mode(seen, v),
        Kind::MaxAge => take_age(seen, v),
        Kind::Mx => take_mx(v, wanted),
        Kind::Other => Ok(Step::Next(seen)),
    }
}

// The value of a line whose first colon stands at `colon`.
#[tactic(auto, using(crate::proofs::Takes::value_laws))]
fn value_of(line: &[u8], colon: usize) -> &[u8]
    requires { (colon ≡ index_of 58 line.now) × (colon < length line.now) }
    ensures { result.now ≡ value_of line.now }
{
    let from = fields::past_blanks(line, colon + 1);
    let rest = &line[from..];
    let to = fields::before_blanks(rest);
    &rest[0..to]
}

// Whether v, which has no blank at either end, is a value. Where its bytes are known to be a text, only its length is looked at.
#[tactic(auto, using(crate::proofs::Texts::value_laws))]
fn is_value(v: &[u8], known: bool) -> bool
    requires { known ≡ true → is_text v.now ≡ true }
    ensures { result ≡ stripped_value v.now }
{
    1 <= v.len() && (known || utf8::is_text(v))
}

// What a line does whose name ends at `colon`; `known` says whether all bytes after the colon are printable.
#[tactic(auto, using(crate::proofs::Takes::line_laws))]
fn take_value(
    seen: Seen,
    line: &[u8],
    colon: usize,
    known: bool,
    wanted: Wanted<'_>,
) -> Result<Step, Cause>
    requires { (has_name 58 line.now ≡ true) × (colon ≡ index_of 58 line.now) × (colon < length line.now) × (known ≡ all printable (drop (colon + 1) line.now)) }
    ensures { result ≡ take_line wanted.entry.host.now wanted.entry.listed seen line.entry.now }
{
    let v = value_of(line, colon);
    if !is_value(v, known) {
        return Err(Cause::Form);
    }
    take_field(seen, kind_of(&line[0..colon]), v, wanted)
}

// The end of the text of the line that begins at `at` and whose LF, or the body's end, stands at `end`: a CR before the LF is no part of it.
#[tactic(auto, using(lists::proofs::Laws::tests), unfolding(crate::specs::Reader::text_end))]
fn text_end(s: &[u8], at: usize, end: usize) -> usize
    requires { at < end }
    ensures { result ≡ text_end s.now at end }
{
    if end < s.len() && s[end - 1] == b'\r' {
        end - 1
    } else {
        end
    }
}

// The place of the first LF of s at or after `from`, or the end of s.
#[tactic(auto, using(crate::proofs::Body::end_laws))]
fn line_end(s: &[u8], from: usize) -> usize
    requires { from ≤ length s.now }
    ensures { (result ≡ from + index_of 10 (drop from s.now)) × (result ≤ length s.now) }
{
    lists::find(s, b'\n', from)
}

// Of eight bytes as one number, the lowest first, the high bit of each that is no space and no byte 21 to 7E. What is done to the word is done to each of its bytes: without its
// high bit a byte is such a one where the first sum passes 127, as it does from 20 on, and the second does not, as it does from 7F on.
fn mark_unprintable(x: u64) -> u64
    ensures { (l : List ℕ) → length l ≡ 8 → is_bytes l ≡ true → number_of l ≡ x → result ≡ marks printable l }
{
    let low = x & 0x7f7f7f7f7f7f7f7f;
    let from_space = low + 0x6060606060606060;
    let past_tilde = low + 0x0101010101010101;
    let others = (from_space ^ past_tilde) ^ 0x8080808080808080;
    (x | others) & 0x8080808080808080
}

// The first place of s at or after `from` where no space and no byte 21 to 7E stands; `from` where it is past the end.
fn printable_end(s: &[u8], from: usize) -> usize
    ensures { result ≡ from + span_of printable (drop from s.now) }
{
    lists::past_by_eight(s, from, mark_unprintable, utf8::is_printable)
}

// What the line does that begins at `at` and whose name ends at `colon`. Its other bytes are read once where they are printable.
#[tactic(auto, using(crate::proofs::Front::named_laws))]
fn take_named(
    seen: Seen,
    s: &[u8],
    at: usize,
    colon: usize,
    wanted: Wanted<'_>,
) -> Result<(Step, usize), Cause>
    requires { (Some colon ≡ field_at 58 s.now at) × (at ≤ colon) × (colon < length s.now) }
    ensures { result ≡ turn_at wanted.entry.host.now wanted.entry.listed seen s.entry.now at }
{
    let printable = printable_end(s, colon + 1);
    let end = line_end(s, printable);
    let text = text_end(s, at, end);
    let step = take_value(seen, &s[at..text], colon - at, text <= printable, wanted)?;
    Ok((step, end + 1))
}

// What the line that begins at `at` does to the fields seen so far.
#[tactic(auto, using(crate::proofs::Front::turn_laws))]
fn take_line(seen: Seen, s: &[u8], at: usize, wanted: Wanted<'_>) -> Result<(Step, usize), Cause>
    requires { at < length s.now }
    ensures { result ≡ turn_at wanted.entry.host.now wanted.entry.listed seen s.entry.now at }
{
    let Some(colon) = fields::name_end(s, at, b':') else {
        return Err(Cause::Form);
    };
    take_named(seen, s, at, colon, wanted)
}

// A fault in the line that begins at `at` and has n lines before it.
fn faulty(cause: Cause, n: u64, at: usize) -> Fault
    requires { n ≤ 65536 }
    ensures { result ≡ record { cause = cause; line = n + 1; offset = at } }
{
    Fault {
        cause,
        line: n + 1,
        offset: at as u64,
    }
}

// The first fault of a body, or its fields. `known`: whether the host counts as listed from the start, so that no pattern is held against it.
#[tactic(auto, using(crate::proofs::Same::check_laws))]
fn check(s: &[u8], host: &[u8], known: bool) -> Result<Checked, Fault>
    requires { length s.now ≤ 65536 }
    ensures { result ≡ checked host.now known s.now }
{
    if s.len() == 0 {
        return Err(faulty(Cause::Form, 0, 0));
    }
    let mut seen = Seen {
        version: false,
        mode: None,
        age: None,
    };
    let mut count: u64 = 0;
    let mut listed = known;
    let mut n: u64 = 0;
    let mut at = 0;
    // The place is counted by hand: where a line ends is known only when its field has been read, and an iterator over lines would read each byte twice.
    while at < s.len() {
        let (step, next) = match take_line(seen, s, at, Wanted { host, listed }) {
            Ok(turn) => turn,
            Err(cause) => return Err(faulty(cause, n, at)),
        };
        match step {
            Step::Pattern(found) => {
                listed = found;
                count += 1;
            }
            Step::Next(left) => seen = left,
        }
        n += 1;
        at = next;
    }
    Ok(Checked {
        seen,
        patterns: count,
        listed,
    })
}

// A refusal with this number, which names this line that begins there.
fn refusal_at(number: u64, line: u64, offset: u64) -> PolicyAnswer
    ensures { result ≡ refused_at number line offset }
{
    PolicyAnswer {
        number: number,
        mode: 0,
        lifetime: 0,
        mx_count: 0,
        line: line,
        offset: offset,
    }
}

// A refusal that names no line.
fn refusal(number: u64) -> PolicyAnswer
    ensures { result ≡ refused number }
{
    refusal_at(number, 0, 0)
}

// The refusal of a fault.
#[tactic(auto, unfolding(crate::specs::Policy::fault_answer))]
fn fault_refusal(fault: Fault) -> PolicyAnswer
    ensures { result ≡ fault_answer fault }
{
    refusal_at(u64::from(fault.cause), fault.line, fault.offset)
}

// Whether so many patterns are enough for the mode.
#[tactic(auto, unfolding(crate::specs::Reader::enough))]
fn is_enough(mode: Mode, count: u64) -> bool
    ensures { result ≡ enough mode count }
{
    match mode {
        Mode::Enforce => 0 < count,
        Mode::Testing => 0 < count,
        Mode::None => true,
    }
}

// The answer to a policy.
#[tactic(auto, unfolding(crate::specs::Reader::accepted))]
fn acceptance(mode: Mode, age: u64, count: u64) -> PolicyAnswer
    ensures { result ≡ accepted mode age count }
{
    PolicyAnswer {
        number: ACCEPTED,
        mode: u64::from(mode),
        lifetime: clock::capped(age).0,
        mx_count: count,
        line: 0,
        offset: 0,
    }
}

// The answer to a body without a fault, by its fields and the count of its patterns.
#[tactic(auto, unfolding(crate::specs::Reader::seen_answer, crate::specs::Reader::answer_in))]
fn answer(seen: Seen, count: u64) -> PolicyAnswer
    ensures { result ≡ seen_answer seen count }
{
    if !seen.version {
        return refusal(INCOMPLETE);
    }
    let Some(mode) = seen.mode else {
        return refusal(INCOMPLETE);
    };
    let Some(age) = seen.age else {
        return refusal(INCOMPLETE);
    };
    if !is_enough(mode, count) {
        return refusal(INCOMPLETE);
    }
    acceptance(mode, age, count)
}

// The answer, for a host that is listed or not: a refused body lists none.
#[tactic(auto, unfolding(crate::specs::Reader::for_host))]
fn for_host(answer: PolicyAnswer, listed: bool) -> PolicyFor
    ensures { result ≡ for_host answer listed }
{
    PolicyFor {
        answer,
        listed: listed && answer.number == ACCEPTED,
    }
}

// Reads a policy body for a host. `known` as in `check`.
#[tactic(auto, using(crate::proofs::Answers::body_laws))]
fn read_body(body: &[u8], host: &[u8], known: bool) -> PolicyFor
    ensures { result ≡ for_host (policy_answer body.now) (known || some_matches (patterns_of body.now) host.now) }
{
    if LONGEST_BODY < body.len() {
        return for_host(refusal(TOO_LONG), false);
    }
    match check(body, host, known) {
        Ok(read) => for_host(answer(read.seen, read.patterns), read.listed),
        Err(fault) => for_host(fault_refusal(fault), false),
    }
}

// Reads a policy body: 7 with its mode, lifetime and count of mx lines; 53 to 57 with the first line that offends; or 50 or 52.
pub fn read_policy(body: &[u8]) -> PolicyAnswer
    ensures { result ≡ policy_answer body.now }
{
    read_body(body, b"", true).answer
}

// The same, and whether the policy lists the host: whether one of its patterns matches it. A host that is no name is listed by none.
#[tactic(auto, using(crate::proofs::Answers::policy_laws))]
pub fn read_policy_for(body: &[u8], host: &[u8]) -> PolicyFor
    ensures { result ≡ policy_for body.now host.now }
{
    read_body(body, host, false)
}

// The line of a body that begins at a place, and whose LF, or the body's end, stands at `end`.
#[tactic(auto, using(crate::proofs::Parts::line_to_laws))]
pub fn line_to(s: &[u8], at: usize, end: usize) -> &[u8]
    ensures { result.now ≡ line_to s.now at end }
{
    if s.len() <= at {
        return &s[0..0];
    }
    if end <= at {
        return &s[at..at];
    }
    if s.len() < end {
        return &s[at..];
    }
    let text = text_end(s, at, end);
    &s[at..text]
}

// Whether the line of a body that begins at a place is named `mx`. Its end need not be known for that.
#[tactic(auto, using(crate::proofs::Parts::mx_at_laws))]
pub fn is_mx_at(s: &[u8], at: usize) -> bool
    ensures { result ≡ is_named (text "mx") (line_at s.now at) }
{
    if s.len() < at || s.len() - at < 3 {
        return false;
    }
    s[at] == b'm' && s[at + 1] == b'x' && s[at + 2] == b':'
}

// The value of a line; nothing where it has no colon.
#[tactic(auto, using(crate::proofs::Parts::line_value_laws))]
pub fn line_value(line: &[u8]) -> &[u8]
    ensures { result.now ≡ value_of line.now }
{
    let colon = lists::find(line, b':', 0);
    if line.len() <= colon {
        return &line[0..0];
    }
    value_of(line, colon)
}
