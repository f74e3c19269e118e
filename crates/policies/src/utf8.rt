// The bytes of a value: printable ASCII and well-formed UTF-8 (RFC 3629).
#![tactic(auto)]

ghost use Rattle.std.specs.Prelude.{◌≡◌, ◌<◌, ◌≤◌, false, MatchOption, length};
ghost use Rattle.policies.specs.Texts.{utf8_tail, utf8_two, utf8_three, utf8_four, printable, is_text};

// Whether b continues a sequence.
#[tactic(auto, using(lists::proofs::Laws::tests), unfolding(crate::specs::Texts::utf8_tail))]
fn is_tail(b: u8) -> bool
    ensures { result ≡ utf8_tail b }
{
    matches!(b, 0x80..=0xbf)
}

// Whether b is a space or a byte 21 to 7E.
#[tactic(auto, using(lists::proofs::Laws::tests), unfolding(crate::specs::Texts::printable))]
pub fn is_printable(b: u8) -> bool
    ensures { result ≡ printable b }
{
    matches!(b, 0x20..=0x7e)
}

// Whether a and b are a sequence.
#[tactic(auto, using(lists::proofs::Laws::tests), unfolding(crate::specs::Texts::utf8_two))]
fn is_two(a: u8, b: u8) -> bool
    ensures { result ≡ utf8_two a b }
{
    matches!(a, 0xc2..=0xdf) && is_tail(b)
}

// Whether a, b and c are a sequence.
#[tactic(auto, using(crate::proofs::Texts::three_laws))]
fn is_three(a: u8, b: u8, c: u8) -> bool
    ensures { result ≡ utf8_three a b c }
{
    is_tail(c)
        && match a {
            0xe0 => matches!(b, 0xa0..=0xbf),
            0xed => matches!(b, 0x80..=0x9f),
            0xe1..=0xef => is_tail(b),
            _ => false,
        }
}

// Whether a, b, c and d are a sequence.
#[tactic(auto, using(crate::proofs::Texts::four_laws))]
fn is_four(a: u8, b: u8, c: u8, d: u8) -> bool
    ensures { result ≡ utf8_four a b c d }
{
    is_tail(c)
        && is_tail(d)
        && match a {
            0xf0 => matches!(b, 0x90..=0xbf),
            0xf4 => matches!(b, 0x80..=0x8f),
            0xf1..=0xf3 => is_tail(b),
            _ => false,
        }
}

// What follows the character at the front of v, a space, a byte 21 to 7E or a sequence; nothing where none stands there.
#[tactic(auto, using(crate::proofs::Texts::character_laws))]
fn after_character(v: &[u8]) -> Option<&[u8]>
    ensures { MatchOption result (1 ≤ length v.now → is_text v.now ≡ false) (λ rest. (is_text v.now ≡ is_text rest.now) × (length rest.now < length v.now)) }
{
    match v {
        [a, rest @ ..] if is_printable(*a) => Some(rest),
        [a, b, rest @ ..] if is_two(*a, *b) => Some(rest),
        [a, b, c, rest @ ..] if is_three(*a, *b, *c) => Some(rest),
        [a, b, c, d, rest @ ..] if is_four(*a, *b, *c, *d) => Some(rest),
        _ => None,
    }
}

// What follows the spaces and bytes 21 to 7E at the front of v.
#[tactic(auto, using(crate::proofs::Texts::run_laws))]
fn after_printable(v: &[u8]) -> &[u8]
    ensures text { is_text v.now ≡ is_text result.now }
    ensures fewer { length result.now ≤ length v.now }
{
    let end = lists::past(v, 0, is_printable);
    &v[end..]
}

// Whether v is made of spaces, bytes 21 to 7E and sequences.
#[tactic(auto, using(crate::proofs::Texts::text_end))]
pub fn is_text(v: &[u8]) -> bool
    ensures { result ≡ is_text v.now }
{
    let mut rest = after_printable(v);
    // The step is what was read, one to four bytes and the printable ones after them. An iterator had to end in two ways, at the end of v and where no character stands.
    while 0 < rest.len() {
        let Some(after) = after_character(rest) else {
            return false;
        };
        rest = after_printable(after);
    }
    true
}
