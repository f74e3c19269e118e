// The TXT record (RFC 8461, 3.1).
#![tactic(auto)]

ghost use Rattle.std.specs.Prelude.{◌≡◌, ℕ, List, true, [], ◌∷◌, ◌++◌, ◌+◌, ◌<◌, ◌≤◌, length, drop};
ghost use Rattle.std.specs.Iterator.{YieldsFirstRef, item_count};
ghost use Rattle.lists.specs.Bytes.{is_bytes};
ghost use Rattle.lists.specs.Span.{span_of, begins};
ghost use Rattle.lists.specs.Words.{number_of, marks};
ghost use Rattle.txt.specs.Paper.{value_byte, is_id};
ghost use Rattle.txt.specs.Rdata.{is_rdata, joined};
ghost use Rattle.txt.specs.Grammar.{version, fields_of};
ghost use Rattle.txt.specs.Txt.{is_candidate, chosen, refusal, grammar, txt_answer, output_of, read_txt, wrote_txt, id_part};
ghost use Rattle.txt.specs.Steps.{strings_left, with_one, CandidateIs, FieldAt, refusal_number, answered, form_of, id_answer};

use numbers::Words;

// What the text of a candidate begins with.
const TAG: [u8; 8] = [b'v', b'=', b'S', b'T', b'S', b'v', b'1', b';'];

// The answer of a call: its number, and on 6 where in the output the id starts and how long it is.
#[repr(C)]
#[derive(Clone, Copy)]
pub struct TxtAnswer {
    pub number: u64,
    pub id_start: u64,
    pub id_length: u64,
}

// Why a call hands back no id.
#[derive(Clone, Copy)]
enum Refusal {
    NoRecord,
    SeveralRecords,
    Grammar,
    WireForm,
    OutputTooShort,
}

// A refusal has its number only.
impl From<Refusal> for TxtAnswer {
    ghost from_gives = { λ r a. a ≡ refusal (refusal_number r) };

    fn from(refusal: Refusal) -> TxtAnswer {
        let number = match refusal {
            Refusal::NoRecord => 40,
            Refusal::SeveralRecords => 41,
            Refusal::Grammar => 42,
            Refusal::WireForm => 43,
            Refusal::OutputTooShort => 44,
        };
        TxtAnswer {
            number,
            id_start: 0,
            id_length: 0,
        }
    }
}

// The character strings of an RDATA, each behind a byte with its length, as far as the RDATA goes.
#[derive(Clone, Copy)]
struct CharacterStrings<'a> {
    rest: &'a [u8],
}

impl<'a> Iterator for CharacterStrings<'a> {
    type Item = &'a [u8];

    ghost next_gives = { YieldsFirstRef strings_left };

    ghost remaining = { item_count strings_left };

    fn next(&mut self) -> Option<&'a [u8]> {
        let (length, after) = self.rest.split_first()?;
        let end = usize::from(*length).min(after.len());
        let string = &after[..end];
        self.rest = &after[end..];
        Some(string)
    }
}

// Whether the RDATA s is not empty, and no character string runs past it.
#[tactic(auto, using(crate::proofs::Strings::rdata_laws))]
fn is_rdata(s: &[u8]) -> bool
    ensures { result ≡ is_rdata s.now }
{
    let mut rest = s;
    // No `for` over `CharacterStrings`: these end with the RDATA, and don't say whether the last is cut off.
    while let Some((length, after)) = rest.split_first() {
        let n = usize::from(*length);
        if after.len() < n {
            return false;
        }
        rest = &after[n..];
    }
    0 < s.len()
}

// Whether t begins with the tag.
#[tactic(auto, using(crate::proofs::Strings::tagged_laws))]
fn is_tagged(t: &[u8]) -> bool
    ensures { result ≡ is_candidate t.now }
{
    8 <= t.len() && lists::equal(&t[0..8], &TAG)
}

// Whether the text of the RDATA s begins with the tag, which may go over several strings. They are not joined for it: each is held against what is left of the tag.
#[tactic(auto, using(crate::proofs::Strings::tag_laws))]
fn is_candidate_in_parts(s: &[u8]) -> bool
    ensures { result ≡ is_candidate (joined s.now) }
{
    let mut left: &[u8] = &TAG;
    for string in (CharacterStrings { rest: s }) {
        if string.is_empty() {
            continue;
        }
        let n = string.len().min(left.len());
        if !lists::equal(&string[..n], &left[..n]) {
            return false;
        }
        left = &left[n..];
        if left.len() == 0 {
            return true;
        }
    }
    false
}

// Whether the text of the RDATA s begins with the tag. Where the first string has room for it, no other is looked at.
#[tactic(auto, using(crate::proofs::Strings::first_laws))]
fn is_candidate(s: &[u8]) -> bool
    ensures { result ≡ is_candidate (joined s.now) }
{
    if s.len() < 1 {
        return false;
    }
    if s[0] < 8 {
        return is_candidate_in_parts(s);
    }
    is_tagged(&s[1..])
}

// The candidates among some RDATAs: none, one, or several.
#[derive(Clone, Copy)]
enum Found<'a> {
    Nothing,
    One(&'a [u8]),
    Several,
}

// One candidate more.
fn with_one<'a>(found: Found<'a>, rdata: &'a [u8]) -> Found<'a>
    ensures { result ≡ with_one found.entry rdata.entry }
{
    match found {
        Found::Nothing => Found::One(rdata),
        Found::One(_) => Found::Several,
        Found::Several => Found::Several,
    }
}

// The RDATA of the one candidate. All are looked at once: for their wire form and for the candidates among them. The caller has tested that the list of lengths has no left-over bytes.
#[tactic(auto, using(crate::proofs::Candidates::found_laws), unfolding(crate::specs::Steps::CandidateIs, crate::specs::Steps::SeenIs))]
fn find_candidate<'a>(rdatas: &'a [u8], lengths: &[u8]) -> Result<&'a [u8], Refusal>
    ensures { CandidateIs rdatas.entry.now lengths.entry.now result }
{
    let mut found = Found::Nothing;
    let mut rest = rdatas;
    for n in (Words { list: lengths }) {
        let n = n as usize;
        if rest.len() < n {
            return Err(Refusal::WireForm);
        }
        let rdata = &rest[..n];
        if !is_rdata(rdata) {
            return Err(Refusal::WireForm);
        }
        if is_candidate(rdata) {
            found = with_one(found, rdata);
        }
        rest = &rest[n..];
    }
    if 0 < rest.len() {
        return Err(Refusal::WireForm);
    }
    match found {
        Found::Nothing => Err(Refusal::NoRecord),
        Found::One(rdata) => Ok(rdata),
        Found::Several => Err(Refusal::SeveralRecords),
    }
}

// How many bytes the text of the RDATA s has.
#[tactic(auto, using(crate::proofs::Strings::length_laws), unfolding(crate::specs::Rdata::joined))]
fn joined_length(s: &[u8]) -> usize
    ensures { result ≡ length (joined s.now) }
{
    let mut n = 0;
    for string in (CharacterStrings { rest: s }) {
        n += string.len();
    }
    n
}

// Writes the text of the RDATA s over the front of the output, which has room for it, one string after another.
#[tactic(auto, using(crate::proofs::Writing::join_laws), unfolding(crate::specs::Rdata::joined))]
fn join(s: &[u8], output: &mut [u8])
    requires { length (joined s.now) ≤ length output.old }
    ensures { output.new ≡ joined s.now ++ drop (length (joined s.now)) output.old }
{
    let mut n = 0;
    for string in (CharacterStrings { rest: s }) {
        lists::write_front(string, &mut output[n..]);
        n += string.len();
    }
}

// Whether b may stand in a value.
#[tactic(auto, using(lists::proofs::Laws::tests), unfolding(crate::specs::Paper::value_byte))]
fn is_value_byte(b: u8) -> bool
    ensures { result ≡ value_byte b }
{
    matches!(b, 0x21..=0x7e) && b != b'=' && b != b';'
}

// Of eight bytes as one number, the lowest first, the high bit of each that may not stand in a value. What is done to the word is done to each of its bytes: without its high bit a
// byte may stand there where the first sum passes 127, as it does from 21 on, the second does not, as it does from 7F on, and it differs from `=` and from `;`.
fn mark_non_values(x: u64) -> u64
    ensures { (l : List ℕ) → length l ≡ 8 → is_bytes l ≡ true → number_of l ≡ x → result ≡ marks value_byte l }
{
    let low = x & 0x7f7f7f7f7f7f7f7f;
    let from_21 = low + 0x5f5f5f5f5f5f5f5f;
    let past_tilde = low + 0x0101010101010101;
    let no_equals = (low ^ 0x3d3d3d3d3d3d3d3d) + 0x7f7f7f7f7f7f7f7f;
    let no_semicolon = (low ^ 0x3b3b3b3b3b3b3b3b) + 0x7f7f7f7f7f7f7f7f;
    let good = (from_21 ^ past_tilde) & no_equals & no_semicolon;
    let others = good ^ 0x8080808080808080;
    (x | others) & 0x8080808080808080
}

// Where the value ends that follows the `=` at e.
fn value_end(t: &[u8], e: usize) -> usize
    requires { e < length t.now }
    ensures { result ≡ e + 1 + span_of value_byte (drop (e + 1) t.now) }
{
    lists::past_by_eight(t, e + 1, mark_non_values, is_value_byte)
}

// A field of a text: the places where its name begins, its `=` stands and its value ends.
#[derive(Clone, Copy)]
struct Field {
    name: usize,
    equals: usize,
    end: usize,
}

// The field that stands at `at`, after the version or a field; nothing where the text ends there, but for a delimiter.
#[tactic(auto, using(crate::proofs::Forms::step_laws))]
fn field_at(t: &[u8], at: usize) -> Result<Option<Field>, Refusal>
    ensures { FieldAt t.now at result }
{
    if t.len() <= at {
        return Ok(None);
    }
    let p = fields::past_blanks(t, at);
    if t.len() <= p {
        return Err(Refusal::Grammar);
    }
    if t[p] != b';' {
        return Err(Refusal::Grammar);
    }
    let name = fields::past_blanks(t, p + 1);
    if t.len() <= name {
        return Ok(None);
    }
    let Some(equals) = fields::name_end(t, name, b'=') else {
        return Err(Refusal::Grammar);
    };
    let end = value_end(t, equals);
    if end - equals <= 1 {
        return Err(Refusal::Grammar);
    }
    Ok(Some(Field { name, equals, end }))
}

// Whether v is an id: 1 to 32 letters or digits.
#[tactic(auto, using(crate::proofs::Answers::id_laws))]
pub fn is_id(v: &[u8]) -> bool
    ensures { result ≡ is_id v.now }
{
    1 <= v.len() && v.len() <= 32 && v.len() <= fields::letters_end(v, 0)
}

// Tests the form of what follows the version or a field, from `from` on.
#[tactic(auto, using(crate::proofs::Answers::form_laws))]
fn check_form(t: &[u8], from: usize) -> Result<(), Refusal>
    ensures { result ≡ form_of (fields_of (drop from t.now)) }
{
    let mut at = from;
    // The step is what was read. An iterator would give a `Result` for each field, and had to say besides that nothing comes after a fault.
    while let Some(field) = field_at(t, at)? {
        at = field.end;
    }
    Ok(())
}

// The answer where the first field that is named `id` has its `=` at `equals` and its value ends at `end`.
#[tactic(auto, using(crate::proofs::Answers::with_laws))]
fn with_id(t: &[u8], equals: usize, end: usize) -> Result<TxtAnswer, Refusal>
    requires { (equals + 1 < end) × (end ≤ length t.now) }
    ensures { answered result ≡ id_answer t.now (equals + 1) end }
{
    let start = equals + 1;
    if !is_id(&t[start..end]) {
        return Err(Refusal::Grammar);
    }
    check_form(t, end)?;
    Ok(TxtAnswer {
        number: 6,
        id_start: start as u64,
        id_length: (end - start) as u64,
    })
}

// The grammar's answer for a text that begins with the version.
#[tactic(auto, using(crate::proofs::Answers::read_record_laws))]
fn read_record(t: &[u8]) -> Result<TxtAnswer, Refusal>
    requires { begins version t.now ≡ true }
    ensures { answered result ≡ grammar t.now }
{
    let mut at = 7;
    // As in `check_form`.
    while let Some(field) = field_at(t, at)? {
        if lists::equal(&t[field.name..field.equals], b"id") {
            return with_id(t, field.equals, field.end);
        }
        at = field.end;
    }
    Err(Refusal::Grammar)
}

// The answer for the one candidate, whose text goes over the front of the output.
#[tactic(auto, using(crate::proofs::CallReturns::one_laws))]
fn write_one(s: &[u8], output: &mut [u8]) -> Result<TxtAnswer, Refusal>
    requires { is_candidate (joined s.now) ≡ true }
    ensures value { answered result ≡ txt_answer (chosen (joined s.now ∷ []) (length output.old)) }
    ensures output_after { output.new ≡ output_of (chosen (joined s.now ∷ []) (length output.old)) output.old }
{
    let n = joined_length(s);
    if output.len() < n {
        return Err(Refusal::OutputTooShort);
    }
    join(s, output);
    read_record(&output[0..n])
}

// The answer of a call, with the refusals apart.
#[tactic(auto, using(crate::proofs::CallReturns::read_laws))]
fn read(rdatas: &[u8], lengths: &[u8], output: &mut [u8]) -> Result<TxtAnswer, Refusal>
    ensures value { answered result ≡ read_txt rdatas.now lengths.now (length output.old) }
    ensures output_after { output.new ≡ wrote_txt rdatas.now lengths.now output.old }
{
    if !numbers::is_whole(lengths) {
        return Err(Refusal::WireForm);
    }
    let rdata = find_candidate(rdatas, lengths)?;
    write_one(rdata, output)
}

// Reads the TXT RDATAs, which stand one after another with these lengths. The text of the one candidate goes over the front of the output; where the call is
// refused before that, the output is left as it was.
pub fn read_txt(rdatas: &[u8], lengths: &[u8], output: &mut [u8]) -> TxtAnswer
    ensures value { result ≡ read_txt rdatas.now lengths.now (length output.old) }
    ensures output_after { output.new ≡ wrote_txt rdatas.now lengths.now output.old }
{
    match read(rdatas, lengths, output) {
        Ok(answer) => answer,
        Err(refusal) => TxtAnswer::from(refusal),
    }
}

// The id of an answer, as the part of the output where it stands; of a refusal nothing.
pub fn id_part(output: &[u8], answer: TxtAnswer) -> &[u8]
    ensures { result.now ≡ id_part output.now answer }
{
    numbers::part(output, answer.id_start as usize, answer.id_length)
}
