// Blanks, and the names of fields: shared by the TXT record and the policy.
#![tactic(auto)]

ghost use Rattle.std.specs.Prelude.{◌≡◌, ◌+◌, List, ℕ, true, length, drop};
ghost use Rattle.lists.specs.Bytes.{is_bytes};
ghost use Rattle.lists.specs.Span.{span_of};
ghost use Rattle.lists.specs.Words.{number_of, marks};
ghost use Rattle.fields.specs.Blank.{blank, unblanked};
ghost use Rattle.fields.specs.Name.{letter_or_digit, name_byte, field_at};

// The most bytes of a field's name.
const LONGEST_NAME: usize = 32;

// Whether b is a space or a tab.
#[tactic(auto, unfolding(crate::specs::Blank::blank))]
pub fn is_blank(b: u8) -> bool
    ensures { result ≡ blank b }
{
    b == b' ' || b == b'\t'
}

// The first place of s at or after `from` where no blank stands; `from` where it is past the end.
pub fn past_blanks(s: &[u8], from: usize) -> usize
    ensures { result ≡ from + span_of blank (drop from s.now) }
{
    lists::past(s, from, is_blank)
}

// How many bytes s has without the blanks at its end.
pub fn before_blanks(s: &[u8]) -> usize
    ensures { result ≡ unblanked s.now }
{
    for i in (0..s.len()).rev() {
        if !is_blank(s[i]) {
            return i + 1;
        }
    }
    0
}

// Whether b is a letter or a digit. Small letters are told first: most bytes are such.
// (Tried: `is_ascii_alphanumeric` and `matches!` of the three ranges, with which a policy of mx lines takes 1.18 and 1.32 times plain C's instructions; 1.1 are promised.)
pub fn is_letter_or_digit(b: u8) -> bool
    ensures { result ≡ letter_or_digit b }
{
    if b'a' <= b {
        return b <= b'z';
    }
    if b'A' <= b {
        return b <= b'Z';
    }
    if b'0' <= b {
        return b <= b'9';
    }
    false
}

// Of eight bytes as one number, the lowest first, the high bit of each that is neither letter nor digit. What is done to the word is done to each of its bytes: without its high bit
// a byte is a letter where, made small, it is a to z, and a digit where it is 0 to 9; a sum passes 127 from the first byte of a range on, another from the first one after it.
fn mark_non_letters(x: u64) -> u64
    ensures { (l : List ℕ) → length l ≡ 8 → is_bytes l ≡ true → number_of l ≡ x → result ≡ marks letter_or_digit l }
{
    let low = x & 0x7f7f7f7f7f7f7f7f;
    let small = low | 0x2020202020202020;
    let from_a = small + 0x1f1f1f1f1f1f1f1f;
    let past_z = small + 0x0505050505050505;
    let letters = from_a ^ past_z;
    let from_0 = low + 0x5050505050505050;
    let past_9 = low + 0x4646464646464646;
    let digits = from_0 ^ past_9;
    let others = (letters | digits) ^ 0x8080808080808080;
    (x | others) & 0x8080808080808080
}

// The first place of s at or after `from` where neither letter nor digit stands; `from` where it is past the end.
pub fn letters_end(s: &[u8], from: usize) -> usize
    ensures { result ≡ from + span_of letter_or_digit (drop from s.now) }
{
    lists::past_by_eight(s, from, mark_non_letters, is_letter_or_digit)
}

// Whether b is a letter, a digit, `_`, `-` or `.`.
#[tactic(auto, unfolding(crate::specs::Name::name_byte))]
pub fn is_name_byte(b: u8) -> bool
    ensures { result ≡ name_byte b }
{
    is_letter_or_digit(b) || b == b'_' || b == b'-' || b == b'.'
}

// Where the byte `end` stands that ends the field's name which begins at `at`; nothing where there is no such name.
pub fn name_end(s: &[u8], at: usize, end: u8) -> Option<usize>
    ensures { result ≡ field_at end s.now at }
{
    let e = lists::past(s, at, |b| b != end && is_name_byte(b));
    if e < s.len()
        && s[e] == end
        && 1 <= e - at
        && e - at <= LONGEST_NAME
        && is_letter_or_digit(s[at])
    {
        Some(e)
    } else {
        None
    }
}
