// Bytes and lists of bytes, as the crates above share them.
#![tactic(auto)]

ghost use Rattle.std.specs.Prelude.{◌≡◌, ℕ, Bool, List, true, ◌+◌, ◌*◌, ◌/◌, ◌<◌, ◌≤◌, leb, length, drop};
ghost use Rattle.std.specs.Int.Count.{count_trailing_zeros};
ghost use Rattle.lists.specs.Bytes.{is_bytes};
ghost use Rattle.lists.specs.Equal.{same_letter, same_bytes};
ghost use Rattle.lists.specs.Span.{span_of};
ghost use Rattle.lists.specs.Split.{index_of};
ghost use Rattle.lists.specs.Words.{number_of, first_eight, marks};
ghost use Rattle.lists.specs.Write.{wrote_front};

// Whether x and y are the same byte, where an ASCII capital and its small letter count as one.
#[tactic(auto, using(crate::proofs::Std::letter_laws))]
pub fn is_same_letter(x: u8, y: u8) -> bool
    ensures { result ≡ same_letter x y }
{
    x == y || x.eq_ignore_ascii_case(&y)
}

// The first eight bytes of s as one number, the lowest first; zero where s has fewer.
pub fn first_eight(s: &[u8]) -> u64
    ensures { (result ≡ number_of (first_eight s.now)) × (is_bytes (first_eight s.now) ≡ true) }
{
    match s.first_chunk::<8>() {
        Some(eight) => u64::from_le_bytes(*eight),
        None => 0,
    }
}

// How many of the eight bytes of m, the lowest first, stand below the one with its lowest set bit; eight where m is zero.
#[tactic(auto, using(crate::proofs::Std::below_laws))]
pub fn bytes_below(m: u64) -> usize
    ensures { (result ≡ count_trailing_zeros 64 m / 8) × (result ≤ 8) }
{
    (m.trailing_zeros() / 8) as usize
}

// Whether a and b, which are equally long, are the same bytes, compared one by one.
#[inline(always)]
fn equal_few(a: &[u8], b: &[u8]) -> bool
    requires { length a.now ≡ length b.now }
    ensures { result ≡ same_bytes a.now b.now }
{
    a.iter().zip(b).all(|(x, y)| x == y)
}

// Whether a and b are the same bytes. They are compared eight at a time, and then what is left.
// (Tried: `a == b`, with which a lookup in a cache of 64 entries takes 2.3 times plain C's instructions, and 1.5 are promised.)
#[inline(always)]
pub fn equal(a: &[u8], b: &[u8]) -> bool
    ensures { result ≡ same_bytes a.now b.now }
{
    if a.len() != b.len() {
        return false;
    }
    let (words, rest) = a.as_chunks::<8>();
    let (others, other_rest) = b.as_chunks::<8>();
    for (k, word) in words.iter().enumerate() {
        if u64::from_le_bytes(*word) != u64::from_le_bytes(others[k]) {
            return false;
        }
    }
    equal_few(rest, other_rest)
}

// The same as `equal`, for bytes that may be many: thirty-two are compared a turn, and then what is left. The code of `equal` is put where it is called.
pub fn equal_long(a: &[u8], b: &[u8]) -> bool
    ensures { result ≡ same_bytes a.now b.now }
{
    if a.len() != b.len() {
        return false;
    }
    let (parts, rest) = a.as_chunks::<32>();
    let (others, other_rest) = b.as_chunks::<32>();
    for (k, part) in parts.iter().enumerate() {
        if !equal(part, &others[k]) {
            return false;
        }
    }
    equal(rest, other_rest)
}

// The index of the first b of s at or after `from`, or the length of s where there is none; `from` where it is past the end.
#[tactic(auto, using(crate::proofs::Std::index_is_span))]
pub fn find(s: &[u8], b: u8, from: usize) -> usize
    ensures { result ≡ from + index_of b (drop from s.now) }
{
    past(s, from, |x| x != b)
}

// Writes the text over the front of the output, and says whether it fits; where it does not, the output is left as it was.
// (Byte by byte, which becomes the C library's `memcpy`: by `copy_from_slice` the archive needs `memmove` too.)
#[tactic(auto, using(crate::proofs::Write::front_laws))]
pub fn write_front(text: &[u8], output: &mut [u8]) -> bool
    ensures { (result ≡ leb (length text.now) (length output.old)) × (output.new ≡ wrote_front text.now output.old) }
{
    if output.len() < text.len() {
        return false;
    }
    for (i, b) in text.iter().enumerate() {
        output[i] = *b;
    }
    true
}

// The first place of s at or after `from` whose byte fails the test, or the end of s where none does; `from` where it is past the end.
#[inline(always)]
pub fn past<F: Fn(u8) -> bool>(s: &[u8], from: usize, test: F) -> usize
    requires { F.IsAlwaysCallable test }
    ensures { (p : ℕ → Bool) → ((b : ℕ) (r : Bool) → b < 256 → F.post test b r → r ≡ p b) → result ≡ from + span_of p (drop from s.now) }
{
    for i in from..s.len() {
        if !test(s[i]) {
            return i;
        }
    }
    from.max(s.len())
}

// The same, eight bytes a turn, and then what is left: `mark` gives, of eight bytes as one number, the lowest first, the high bit of each that fails the test.
#[inline(always)]
pub fn past_by_eight<M: Fn(u64) -> u64, F: Fn(u8) -> bool>(
    s: &[u8],
    from: usize,
    mark: M,
    test: F,
) -> usize
    requires marked { M.IsAlwaysCallable mark }
    requires tested { F.IsAlwaysCallable test }
    ensures { (p : ℕ → Bool)
        → ((l : List ℕ) (r : ℕ) → length l ≡ 8 → is_bytes l ≡ true → M.post mark (number_of l) r → r ≡ marks p l)
        → ((b : ℕ) (r : Bool) → b < 256 → F.post test b r → r ≡ p b)
        → result ≡ from + span_of p (drop from s.now) }
{
    if s.len() < from {
        return from;
    }
    let (words, _) = s[from..].as_chunks::<8>();
    for (k, word) in words.iter().enumerate() {
        let m = mark(u64::from_le_bytes(*word));
        if m != 0 {
            return from + 8 * k + bytes_below(m);
        }
    }
    past(s, from + 8 * words.len(), test)
}
