// Comparing two texts; names, and the patterns that match them.
#![tactic(auto)]

ghost use Rattle.std.specs.Prelude.{◌≡◌, ◌&&◌, true, eqb, get_or, length};
ghost use Rattle.lists.specs.Equal.{same_text};
ghost use Rattle.numbers.specs.Numbers.{numbers};
ghost use Rattle.numbers.specs.Pieces.{cut};
ghost use Rattle.names.specs.Pairs.{comparison};
ghost use Rattle.names.specs.Name.{label_byte, is_label, is_name, is_starred, is_pattern, after_first, matches_name, pattern_for, some_matches};
ghost use Rattle.names.specs.Scan.{label_ends, follows_dot, covers_name};

use numbers::Pieces;

// What comparing two texts ignoring ASCII case gave: whether they are equal, and how many byte pairs were read.
#[derive(Clone, Copy)]
pub struct Comparison {
    pub equal: bool,
    pub pairs: usize,
}

// Compares texts of one length by byte pairs, one by one from the right, up to and with the first that differs; each is counted as it is read.
#[tactic(auto, using(crate::proofs::Pairs::pairs_laws))]
fn compare_pairs(a: &[u8], b: &[u8]) -> Comparison
    requires { length a.now ≡ length b.now }
    ensures { result ≡ comparison a.now b.now }
{
    let mut pairs = 0;
    for i in (0..a.len()).rev() {
        let same = lists::is_same_letter(a[i], b[i]);
        pairs += 1;
        if !same {
            return Comparison {
                equal: false,
                pairs,
            };
        }
    }
    Comparison { equal: true, pairs }
}

// Compares two texts ignoring ASCII case: their lengths first, then byte pairs from the right. That `equal` says whether they are the same text
// follows from the definition; the contract says it as well, for the proofs of the callers.
pub fn compare(a: &[u8], b: &[u8]) -> Comparison
    ensures { (result ≡ comparison a.now b.now) × (result.equal ≡ same_text a.now b.now) }
{
    if a.len() != b.len() {
        return Comparison {
            equal: false,
            pairs: 0,
        };
    }
    compare_pairs(a, b)
}

// Whether b is a letter, a digit or a hyphen. A dot, which ends most labels, is told before capitals and digits.
// (Tried: `fields::is_letter_or_digit(b) || b == b'-'` and `matches!` of the ranges, with which 16 patterns of 255 bytes are written with 2.5 and 3.0 times plain C's instructions; 1.7 are promised.)
fn is_label_byte(b: u8) -> bool
    ensures { result ≡ label_byte b }
{
    if b'a' <= b {
        return b <= b'z';
    }
    if b == b'.' {
        return false;
    }
    if b'A' <= b {
        return b <= b'Z';
    }
    if b'0' <= b {
        return b <= b'9';
    }
    b == b'-'
}

// What a label asks besides its bytes: 1 to 63 of them, no hyphen at either end.
#[tactic(auto, using(lists::proofs::Laws::tests), unfolding(crate::specs::Scan::label_ends))]
fn has_label_ends(l: &[u8]) -> bool
    ensures { result ≡ label_ends l.now }
{
    1 <= l.len() && l.len() <= 63 && l[0] != b'-' && l[l.len() - 1] != b'-'
}

// Whether a hyphen stands at a place.
fn has_hyphen_at(s: &[u8], at: usize) -> bool
    ensures { result ≡ eqb (get_or s.now at 0) 45 }
{
    at < s.len() && s[at] == b'-'
}

// Whether s is a name: 1 to 253 bytes, labels joined by single dots. All is read in one pass: a label begins at `start`, with no hyphen, and its bytes up to the present one are a
// label's.
pub fn is_name(s: &[u8]) -> bool
    ensures { result ≡ is_name s.now }
{
    if s.len() < 1 || 253 < s.len() || has_hyphen_at(s, 0) {
        return false;
    }
    let mut start = 0;
    for (i, b) in s.iter().enumerate() {
        if !is_label_byte(*b) {
            if *b != b'.' || !has_label_ends(&s[start..i]) || has_hyphen_at(s, i + 1) {
                return false;
            }
            start = i + 1;
        }
    }
    has_label_ends(&s[start..])
}

// Whether p begins with `*.`.
#[tactic(auto, using(lists::proofs::Laws::tests), unfolding(crate::specs::Name::is_starred))]
fn is_starred(p: &[u8]) -> bool
    ensures { result ≡ is_starred p.now }
{
    2 <= p.len() && p[0] == b'*' && p[1] == b'.'
}

// Whether p is a pattern: a name, or `*.` and a name.
#[tactic(auto, using(crate::proofs::Match::pattern_laws))]
pub fn is_pattern(p: &[u8]) -> bool
    ensures { result ≡ is_pattern p.now }
{
    is_name(if is_starred(p) { &p[2..] } else { p })
}

// What a text is for a name: no pattern; or a pattern that matches the name, or another. An `Option<bool>` would be no plainer: it has no word for what its `bool` says.
#[derive(Clone, Copy)]
pub enum Pattern {
    Malformed,
    Matching,
    Other,
}

// Whether l is a label: 1 to 63 letters, digits and hyphens, no hyphen at either end.
#[tactic(auto, using(crate::proofs::Patterns::label_laws))]
fn is_label(l: &[u8]) -> bool
    ensures { result ≡ is_label l.now }
{
    has_label_ends(l) && lists::past(l, 0, is_label_byte) == l.len()
}

// Whether n has a dot, and what follows the first equals `rest`, ignoring ASCII case.
#[tactic(auto, using(crate::proofs::Match::follows_laws))]
fn follows_dot(rest: &[u8], n: &[u8]) -> bool
    ensures { result ≡ follows_dot rest.now n.now }
{
    let dot = lists::find(n, b'.', 0);
    dot < n.len() && compare(rest, &n[dot + 1..]).equal
}

// Whether n is a name made of one label, a dot and the name `rest`.
#[tactic(auto, using(crate::proofs::Patterns::under_laws))]
fn is_under(rest: &[u8], n: &[u8]) -> bool
    requires { is_name rest.now ≡ true }
    ensures { result ≡ (is_name n.now && same_text rest.now (after_first n.now)) }
{
    follows_dot(rest, n) && n.len() <= 253 && is_label(&n[0..n.len() - rest.len() - 1])
}

// Whether p is a pattern, and whether it matches n. What equals a name is one, so n is not tested as a whole.
#[tactic(auto, using(crate::proofs::Patterns::read_pattern_laws))]
pub fn read_pattern(p: &[u8], n: &[u8]) -> Pattern
    ensures { result ≡ pattern_for p.now n.now }
{
    if is_starred(p) {
        if !is_name(&p[2..]) {
            return Pattern::Malformed;
        }
        if is_under(&p[2..], n) {
            return Pattern::Matching;
        }
        return Pattern::Other;
    }
    if !is_name(p) {
        return Pattern::Malformed;
    }
    if compare(p, n).equal {
        return Pattern::Matching;
    }
    Pattern::Other
}

// Whether the pattern matches the name n; false where n is no name, or the pattern is neither a name nor `*.` and a name.
#[tactic(auto, using(crate::proofs::Patterns::matches_laws))]
pub fn matches(pattern: &[u8], n: &[u8]) -> bool
    ensures { result ≡ matches_name pattern.now n.now }
{
    matches!(read_pattern(pattern, n), Pattern::Matching)
}

// Whether the pattern is `*.` and what follows the first dot of n, or begins otherwise and equals n, ignoring ASCII case: of a name n, whether the pattern matches it.
#[tactic(auto, using(crate::proofs::Match::covers_laws))]
fn covers(pattern: &[u8], n: &[u8]) -> bool
    ensures { result ≡ covers_name pattern.now n.now }
{
    if is_starred(pattern) {
        follows_dot(&pattern[2..], n)
    } else {
        compare(pattern, n).equal
    }
}

// Whether one of some texts, which stand one after another with these lengths, matches the name n. Whether n is a name is asked once for all of them.
pub fn some_match(texts: &[u8], lengths: &[u8], n: &[u8]) -> bool
    ensures { result ≡ some_matches (cut texts.now (numbers lengths.now)) n.now }
{
    let mut pieces = Pieces {
        bytes: texts,
        lengths,
    };
    pieces.any(|p| covers(p, n)) && is_name(n)
}
