// A reader keeps its place over the lent certificate bytes and moves element by element. Its methods are thin: the work is
// that of `step_at` and `past_at`, on a plain slice and a number.
#![tactic(auto)]

ghost use Rattle.std.specs.Prelude.{◌≡◌};
ghost use Rattle.std.specs.Iterator.{YieldsFirst, item_count};
ghost use Rattle.reader.specs.Read.{step_at, past_at, elements_left};

use der::Head;

// A place in the lent bytes.
#[derive(Clone, Copy)]
pub struct Reader<'a> {
    pub src: &'a [u8],
    pub at: usize,
}

// What stands at a reader's place: an element, the end, or no header of the right form. A `Result<Option<Head>, ..>` would be no plainer: each `match` has the three arms all the same.
#[derive(Clone, Copy, Debug, PartialEq, Eq)]
pub enum Step {
    Element(Head),
    End,
    Broken,
}

// What stands at a place.
#[tactic(auto, using(crate::proofs::Moves::step_laws))]
pub fn step_at(s: &[u8], at: usize) -> Step
    ensures { result ≡ step_at s.now at }
{
    if s.len() <= at {
        return Step::End;
    }
    match der::header_at(s, at) {
        Some(head) => Step::Element(head),
        None => Step::Broken,
    }
}

// The place past what stands there.
#[tactic(auto, using(crate::proofs::Moves::step_laws))]
pub fn past_at(s: &[u8], at: usize) -> usize
    ensures { result ≡ past_at s.now at }
{
    match step_at(s, at) {
        Step::Element(head) => head.end,
        Step::End | Step::Broken => at,
    }
}

impl<'a> Reader<'a> {
    // A reader at a place of the certificate.
    pub fn new(src: &'a [u8], at: usize) -> Reader<'a>
        ensures { (result.src ≡ src.entry) × (result.at ≡ at) }
    {
        Reader { src, at }
    }

    pub fn at(self) -> usize
        ensures { result ≡ self.entry.at }
    {
        self.at
    }

    // What stands at the reader's place.
    pub fn step(self) -> Step
        ensures { result ≡ step_at self.entry.src.now self.entry.at }
    {
        step_at(self.src, self.at)
    }

    // The reader past the element at its place.
    pub fn passed(self) -> Reader<'a>
        ensures { (result.src ≡ self.entry.src) × (result.at ≡ past_at self.entry.src.now self.entry.at) }
    {
        let at = past_at(self.src, self.at);
        Reader { at, ..self }
    }
}

// The elements from the reader's place on, as long as they have headers of the right form.
impl<'a> Iterator for Reader<'a> {
    type Item = Head;

    ghost next_gives = { YieldsFirst elements_left };

    ghost remaining = { item_count elements_left };

    #[tactic(auto, using(crate::proofs::Moves::left_laws))]
    fn next(&mut self) -> Option<Head> {
        match self.step() {
            Step::Element(head) => {
                self.at = head.end;
                Some(head)
            }
            Step::End | Step::Broken => None,
        }
    }
}
