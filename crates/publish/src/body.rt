// The policy that a call writes, and where its patterns come from.
#![tactic(auto)]

ghost use Rattle.std.specs.Prelude.{◌≡◌, ◌+◌, ◌≤◌, length, drop};
ghost use Rattle.std.specs.Iterator.{YieldsFirstRef, item_count};
ghost use Rattle.publish.specs.Texts.{policy_text};
ghost use Rattle.publish.specs.Patterns.{mx_in, patterns_in};

use numbers::Pieces;
use policies::Mode;

// What follows the line that ends at `end`.
fn after(body: &[u8], end: usize) -> &[u8]
    ensures { result.now ≡ drop (end + 1) body.now }
{
    if body.len() <= end {
        return &body[0..0];
    }
    &body[end + 1..]
}

// The patterns of a body's mx lines, one after another.
#[derive(Clone, Copy)]
pub struct MxLines<'a> {
    pub body: &'a [u8],
}

impl<'a> Iterator for MxLines<'a> {
    type Item = &'a [u8];

    ghost next_gives = { YieldsFirstRef mx_in };

    ghost remaining = { item_count mx_in };

    fn next(&mut self) -> Option<&'a [u8]> {
        // A turn for each line, up to the first mx line: how far it goes is what was read.
        while !self.body.is_empty() {
            let body = self.body;
            let end = lists::find(body, b'\n', 0);
            self.body = after(body, end);
            if policies::is_mx_at(body, 0) {
                return Some(policies::line_value(policies::line_to(body, 0, end)));
            }
        }
        None
    }
}

// The patterns of a policy that is written: byte strings that stand one after another, or those of a body's mx lines.
#[derive(Clone, Copy)]
pub enum Patterns<'a> {
    Given(Pieces<'a>),
    Kept(MxLines<'a>),
}

impl<'a> Iterator for Patterns<'a> {
    type Item = &'a [u8];

    ghost next_gives = { YieldsFirstRef patterns_in };

    ghost remaining = { item_count patterns_in };

    fn next(&mut self) -> Option<&'a [u8]> {
        match self {
            Patterns::Given(pieces) => pieces.next(),
            Patterns::Kept(lines) => lines.next(),
        }
    }
}

// A policy that may be written.
#[derive(Clone, Copy)]
pub struct Policy<'a> {
    pub mode: Mode,
    pub lifetime: u64,
    pub patterns: Patterns<'a>,
    ghost short: { length (policy_text mode lifetime (patterns_in patterns)) ≤ 4207 },
}
