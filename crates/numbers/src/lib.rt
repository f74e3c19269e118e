// Lists of four-byte numbers, the highest byte first, the pieces that such a list of lengths cuts, and the bytes of an eight-byte number.
#![tactic(auto)]

ghost use Rattle.std.specs.Prelude.{◌≡◌, ◌&&◌, ◌*◌, ◌+◌, ◌%◌, ◌<◌, length, get_or, take, drop};
ghost use Rattle.std.specs.Iterator.{YieldsFirst, YieldsFirstRef, item_count};
ghost use Rattle.lists.specs.Bytes.{all};
ghost use Rattle.numbers.specs.Numbers.{numbers, is_whole, at_most, eight, words_in};
ghost use Rattle.numbers.specs.Pieces.{sums_to, end_of, pieces_in};

// Whether the list has no left-over bytes.
#[tactic(auto, unfolding(crate::specs::Numbers::is_whole))]
pub fn is_whole(list: &[u8]) -> bool
    ensures { result ≡ is_whole list.now }
{
    list.len() % 4 == 0
}

// How many numbers the list has.
#[tactic(auto, using(crate::proofs::Numbers::count_is))]
pub fn count(list: &[u8]) -> usize
    ensures { result ≡ length (numbers list.now) }
{
    list.len() / 4
}

// The number at place k of the list, and 0 where there is none.
pub fn number(list: &[u8], k: usize) -> u64
    ensures { (result ≡ get_or (numbers list.now) k 0) × (result < 4294967296) }
{
    let (words, _) = list.as_chunks::<4>();
    match words.get(k) {
        Some(word) => u64::from(u32::from_be_bytes(*word)),
        None => 0,
    }
}

// Whether the list has no left-over bytes, its numbers sum to the total, and each is at most the bound: in one pass. What is left of the total is counted down, so that no sum is too large, and the largest is held against the bound at the end.
#[tactic(auto, using(crate::proofs::Numbers::fits_laws))]
pub fn fits(list: &[u8], total: usize, bound: u64) -> bool
    ensures { result ≡ (sums_to list.now total && all (at_most bound) (numbers list.now)) }
{
    if !is_whole(list) {
        return false;
    }
    let mut rest = total as u64;
    let mut most = 0;
    for word in (Words { list }) {
        let n = u64::from(word);
        if rest < n {
            return false;
        }
        rest -= n;
        most = most.max(n);
    }
    most <= bound && rest == 0
}

// Where the piece of n bytes that starts at `at` ends, of `total` bytes: no further than these go.
#[tactic(auto, using(crate::proofs::Cut::end_is))]
pub fn end_of(total: usize, at: usize, n: u64) -> usize
    ensures { result ≡ end_of total at n }
{
    at.saturating_add(n as usize).min(total)
}

// Where the piece at place k, which starts at `at`, ends, of `total` bytes.
pub fn end_at(lengths: &[u8], k: usize, at: usize, total: usize) -> usize
    ensures { result ≡ end_of total at (get_or (numbers lengths.now) k 0) }
{
    end_of(total, at, number(lengths, k))
}

// The n bytes of s from `start` on, as far as s goes.
#[tactic(auto, using(crate::proofs::Cut::part_laws))]
pub fn part(s: &[u8], start: usize, n: u64) -> &[u8]
    ensures { result.now ≡ take n (drop start s.now) }
{
    let start = start.min(s.len());
    &s[start..end_of(s.len(), start, n)]
}

// The eight bytes of a number, the highest first.
#[tactic(auto, unfolding(crate::specs::Numbers::eight))]
pub fn eight_bytes(n: u64) -> [u8; 8]
    ensures { result ≡ eight n }
{
    n.to_be_bytes()
}

// Byte strings that stand one after another, with a list of their lengths: an iterator over them, as far as the bytes go.
#[derive(Clone, Copy)]
pub struct Pieces<'a> {
    pub bytes: &'a [u8],
    pub lengths: &'a [u8],
}

impl<'a> Iterator for Pieces<'a> {
    type Item = &'a [u8];

    ghost next_gives = { YieldsFirstRef pieces_in };

    ghost remaining = { item_count pieces_in };

    #[tactic(auto, using(crate::proofs::Cut::end_most))]
    fn next(&mut self) -> Option<&'a [u8]> {
        let (_, lengths) = self.lengths.split_first_chunk::<4>()?;
        let end = end_at(self.lengths, 0, 0, self.bytes.len());
        let (piece, bytes) = self.bytes.split_at(end);
        self.bytes = bytes;
        self.lengths = lengths;
        Some(piece)
    }
}

// The four-byte numbers of a list, one after another, as `numbers` reads them.
#[derive(Clone, Copy)]
pub struct Words<'a> {
    pub list: &'a [u8],
}

impl<'a> Iterator for Words<'a> {
    type Item = u32;

    ghost next_gives = { YieldsFirst words_in };

    ghost remaining = { item_count words_in };

    fn next(&mut self) -> Option<u32> {
        let (first, rest) = self.list.split_first_chunk::<4>()?;
        self.list = rest;
        Some(u32::from_be_bytes(*first))
    }
}
