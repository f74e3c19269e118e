// DER (X.690) by places: the header of an element.
#![tactic(auto)]

ghost use Rattle.std.specs.Prelude.{◌≡◌, take, drop};
ghost use Rattle.der.specs.Header.{long_size, header, is_constructed};
ghost use Rattle.der.specs.Walk.{walk_run, walk_element, walk_contents};

// The header of an element: its tag byte, where its contents begin, and where they end.
#[derive(Clone, Copy, Debug, PartialEq, Eq)]
pub struct Head {
    pub tag: u8,
    pub start: usize,
    pub end: usize,
}

// A fault at the place of an element.
#[derive(Clone, Copy, Debug, PartialEq, Eq)]
pub struct Fault {
    pub at: usize,
}

// The length in the k bytes at `from`: shortest, and of contents that s holds.
#[tactic(auto, using(crate::proofs::Sizes::long_laws))]
pub fn long_size(s: &[u8], from: usize, k: usize) -> Option<usize>
    ensures { result ≡ long_size k (drop from s.now) }
{
    if k == 0 || s.len() < from || s.len() - from < k || s[from] == 0 {
        return None;
    }
    let end = from + k;
    let mut n: usize = 0;
    for b in &s[from..end] {
        n = n.checked_mul(256)? + usize::from(*b);
    }
    if n < 128 || s.len() - end < n {
        return None;
    }
    Some(n)
}

// The header of the element at `at`; s ends where what holds the element ends.
#[tactic(auto, using(crate::proofs::Heads::header_laws))]
pub fn header_at(s: &[u8], at: usize) -> Option<Head>
    ensures { result ≡ header at (drop at s.now) }
{
    if s.len() <= at || s.len() - at < 2 {
        return None;
    }
    let tag = s[at];
    if tag % 32 == 31 {
        return None;
    }
    let b = at + 2;
    let first = usize::from(s[at + 1]);
    if first < 128 {
        if s.len() - b < first {
            return None;
        }
        return Some(Head {
            tag,
            start: b,
            end: b + first,
        });
    }
    let start = b + (first - 128);
    let size = long_size(s, b, first - 128)?;
    Some(Head {
        tag,
        start,
        end: start + size,
    })
}

// The front of s, up to `end`.
#[tactic(auto, using(crate::proofs::Elements::front_laws))]
pub fn front(s: &[u8], end: usize) -> &[u8]
    ensures { result.now ≡ take end s.now }
{
    &s[..end.min(s.len())]
}

// Whether the tag's bit says that the contents are elements.
#[tactic(auto, unfolding(crate::specs::Header::is_constructed))]
pub fn is_constructed(tag: u8) -> bool
    ensures { result ≡ is_constructed tag }
{
    tag / 32 % 2 != 0
}

// Walks the element at `at`, and what stands in it; `levels` levels are left.
#[cycle(element_run)]
#[tactic(auto, using(crate::proofs::Walks::element_laws))]
fn element(s: &[u8], at: usize, levels: usize) -> Result<usize, Fault>
    ensures { result ≡ walk_element levels s.now at }
{
    if levels == 0 {
        return Err(Fault { at });
    }
    let head = header_at(s, at).ok_or(Fault { at })?;
    if !is_constructed(head.tag) {
        return Ok(head.end);
    }
    run(&s[..head.end], head.start, levels - 1)
}

// Walks the elements from `at` to the end of s, each with `levels` levels.
#[cycle(element_run)]
#[tactic(auto, using(crate::proofs::Walks::run_laws))]
fn run(s: &[u8], at: usize, levels: usize) -> Result<usize, Fault>
    ensures { result ≡ walk_run (walk_element levels) s.now at }
{
    // No iterator: each turn goes on from where the last walk ended, and that end, or its fault, is the result.
    let mut i = at;
    while i < s.len() {
        i = element(s, i, levels)?;
    }
    Ok(i)
}

// Walks what stands in the element of s with that header; `levels` levels are left.
#[tactic(auto, using(crate::proofs::Walks::contents_laws))]
pub fn walk_contents(s: &[u8], head: Head, levels: usize) -> Result<usize, Fault>
    ensures { result ≡ walk_contents (walk_run (walk_element levels)) s.now head }
{
    if !is_constructed(head.tag) {
        return Ok(head.end);
    }
    run(front(s, head.end), head.start, levels)
}
