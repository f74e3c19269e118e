// The policy cache: a table of entries and a buffer of policy texts, both lent by the relay. Only `store` writes to them.
#![tactic(auto)]

ghost use Rattle.std.specs.Prelude.{◌≡◌, ◌≢◌, ◌<◌, ◌≤◌, List, ℕ, ◌++◌, length};
ghost use Rattle.lists.specs.Equal.{same_text};
ghost use Rattle.lists.specs.Check.{refusal_of};
ghost use Rattle.cache.specs.Held.{unfilled, filled, zeros, fields_fit, held_in, text_at, contents, no_entry};
ghost use Rattle.cache.specs.Store.{own_place, store_place, store_refusal, entry_for, store_answer, table_after, texts_after};
ghost use Rattle.cache.specs.Lookup.{only_number, lookup_refusal, lookup_answer};
ghost use Rattle.cache.specs.Scan.{state_of, own_scanned, answer_from, plan_for, Planned};
ghost use Rattle.cache.specs.Search.{liveness, own_entry, other_place, number_of, agrees, policy_checks, found_refusal, answer_at};

use clock::{Lifetime, Reading};
use writing::WriteAnswer;

// How many entries a table has, how many bytes of text each of them, and how many bytes the buffer.
pub const ENTRIES: usize = 64;

pub const ROOM: usize = 1024;

pub const BUFFER: usize = 65536;

// An entry: domain and id filled up with zeros, the clock of the fetch, and the length of the policy's text.
#[repr(C)]
#[derive(Clone, Copy, PartialEq, Eq)]
pub struct CacheEntry {
    pub domain: [u8; 253],
    pub id: [u8; 32],
    pub fetched: u64,
    pub length: u64,
}

// The answer to a lookup: on 15 the place of the policy's text in the buffer, the clock of its fetch, and its id, filled up with zeros; else zeros. The length is
// that of an output, which the call has not.
#[repr(C)]
#[derive(Clone, Copy, PartialEq, Eq)]
pub struct CacheAnswer {
    pub number: u64,
    pub length: u64,
    pub text_start: u64,
    pub text_length: u64,
    pub fetched: u64,
    pub id_length: u64,
    pub id: [u8; 32],
}

// What an entry is at a clock: the three words of the rules.
#[derive(Clone, Copy)]
pub enum State {
    Empty,
    Stale,
    Live,
}

impl State {
    // Whether it is live, of an entry that is not empty.
    #[tactic(auto, unfolding(crate::specs::Search::liveness))]
    fn live(self) -> Option<bool>
        ensures { result ≡ liveness self }
    {
        match self {
            State::Empty => None,
            State::Stale => Some(false),
            State::Live => Some(true),
        }
    }
}

// The domain's own entry: its position, and whether it is live.
#[derive(Clone, Copy)]
pub struct Own {
    pub place: usize,
    pub live: bool,
}

// Why a call is refused. The policy's number is that of its reader.
#[derive(Clone, Copy)]
pub enum Refusal {
    BadDomain,
    BadClock,
    TableFull,
    TextLong,
    NotFound,
    WrongSize,
    BadId,
    BadPolicy(u64),
}

impl From<Refusal> for u64 {
    ghost from_gives = { λ r n. n ≡ number_of r };

    #[tactic(auto, unfolding(crate::specs::Search::number_of))]
    fn from(r: Refusal) -> u64 {
        match r {
            Refusal::BadDomain => 60,
            Refusal::BadClock => 62,
            Refusal::TableFull => 70,
            Refusal::TextLong => 71,
            Refusal::NotFound => 72,
            Refusal::WrongSize => 74,
            Refusal::BadId => 80,
            Refusal::BadPolicy(number) => number,
        }
    }
}

// An entry of zeros.
#[tactic(auto, unfolding(crate::specs::Held::no_entry))]
pub fn no_entry() -> CacheEntry
    ensures { result ≡ no_entry }
{
    CacheEntry {
        domain: [0; 253],
        id: [0; 32],
        fetched: 0,
        length: 0,
    }
}

// A text less its final zeros, as far as they fill N bytes at a time. The loop counts no index: it goes on as long as N more zeros end the text.
fn without_zeros<const N: usize>(s: &[u8]) -> &[u8]
    requires { (0 < N) × (N ≤ 8) }
    ensures same { unfilled result.now ≡ unfilled s.now }
    ensures none_left { (front : List ℕ) → result.now ≢ front ++ zeros N }
{
    let mut rest = s;
    while let Some(front) = rest.strip_suffix(&[0; N]) {
        rest = front;
    }
    rest
}

// A field less its final zeros. Most of them go eight at a time.
#[tactic(auto, using(crate::proofs::Fill::ends_bare))]
fn unfilled_part(field: &[u8]) -> &[u8]
    ensures { result.now ≡ unfilled field.now }
{
    without_zeros::<1>(without_zeros::<8>(field))
}

// Whether a field holds this domain, ignoring ASCII case. Another length is told first, by the byte where the domain's last one would stand and by the one behind it
// (but for a domain that fills the field); the final zeros are looked for only where the bytes before them are the same.
#[tactic(auto, using(crate::proofs::Fill::holds_laws))]
fn holds_domain(field: &[u8], domain: &[u8]) -> bool
    ensures { result ≡ same_text (unfilled field.now) domain.now }
{
    let n = domain.len();
    if n < field.len() && field[n] != 0 {
        return false;
    }
    if 0 < n && n <= field.len() && field[n - 1] == 0 {
        return false;
    }
    let compared = names::compare(numbers::part(field, 0, n as u64), domain);
    compared.equal && unfilled_part(field).len() == n
}

// Whether the fields of an entry are accepted.
#[tactic(auto, unfolding(crate::specs::Held::fields_fit))]
fn fields_fit(e: &CacheEntry) -> bool
    ensures { result ≡ fields_fit e.now }
{
    e.length <= ROOM as u64
        && names::is_name(unfilled_part(&e.domain))
        && txt::is_id(unfilled_part(&e.id))
        && clock::is_reading(Reading(e.fetched))
}

// The cache as a call finds it: the call's clock, and the table and the buffer that are lent.
#[derive(Clone, Copy)]
pub struct Cache<'a> {
    pub clock: u64,
    pub table: &'a [CacheEntry],
    pub texts: &'a [u8],
}

impl<'a> Cache<'a> {
    // The text of the entry e at position i, as far as the buffer goes.
    #[tactic(auto, using(crate::proofs::Search::text_is))]
    fn text_of(self, i: usize, e: &CacheEntry) -> &'a [u8]
        ensures { result.now ≡ text_at self.entry.texts.now i e.now }
    {
        numbers::part(self.texts, ROOM.saturating_mul(i), e.length)
    }

    // What the entry e at position i is. Its text is read once.
    #[tactic(auto, unfolding(crate::specs::Scan::state_of, crate::specs::Held::held_in, crate::specs::Held::is_accepted, crate::specs::Held::is_policy, crate::specs::Store::is_live_at))]
    fn state_of(self, i: usize, e: &CacheEntry) -> State
        ensures { result ≡ state_of self.entry.clock (held_in e.now (text_at self.entry.texts.now i e.now)) }
    {
        if !fields_fit(e) {
            return State::Empty;
        }
        let answer = policies::read_policy(self.text_of(i, e));
        if answer.number != policies::ACCEPTED {
            return State::Empty;
        }
        let live = clock::is_live(
            Reading(e.fetched),
            Lifetime(answer.lifetime),
            Reading(self.clock),
        );
        if live { State::Live } else { State::Stale }
    }

    // The domain's own entry, of several the lowest. The texts of other domains' entries are not read.
    fn own_entry(self, domain: &[u8]) -> Option<Own>
        ensures { result ≡ own_entry self.entry.clock domain.now (contents self.entry.table.now self.entry.texts.now) }
    {
        for (i, e) in self.table.iter().enumerate() {
            if holds_domain(&e.domain, domain) {
                if let Some(live) = self.state_of(i, e).live() {
                    return Some(Own { place: i, live });
                }
            }
        }
        None
    }

    // The place that a domain without an entry of its own takes: an empty entry, else a stale one, of several the lowest. Each text is read until an entry is empty.
    fn other_place(self) -> Option<usize>
        ensures { result ≡ other_place self.entry.clock (contents self.entry.table.now self.entry.texts.now) }
    {
        let mut stale = None;
        for (i, e) in self.table.iter().enumerate() {
            match self.state_of(i, e) {
                State::Empty => return Some(i),
                State::Stale => stale = stale.or(Some(i)),
                State::Live => {}
            }
        }
        stale
    }

    // What both calls are refused for.
    #[tactic(auto, unfolding(crate::specs::Search::agrees, crate::specs::Search::number_of, crate::specs::Lookup::lookup_refusal, crate::specs::Store::sizes_fit, lists::specs::Check::refusal_of))]
    fn check(self, domain: &[u8]) -> Result<(), Refusal>
        ensures { agrees result (lookup_refusal self.entry.clock domain.now (length self.entry.table.now) (length self.entry.texts.now)) tt }
    {
        if self.table.len() != ENTRIES || self.texts.len() != BUFFER {
            return Err(Refusal::WrongSize);
        }
        if !clock::is_reading(Reading(self.clock)) {
            return Err(Refusal::BadClock);
        }
        if !names::is_name(domain) {
            return Err(Refusal::BadDomain);
        }
        Ok(())
    }

    // The place that a store takes: the domain's own entry, else another.
    fn place_for(self, domain: &[u8], id: &[u8], policy: &[u8]) -> Result<usize, Refusal>
        ensures { agrees result (store_refusal self.entry.clock domain.now id.now policy.now self.entry.table.now self.entry.texts.now) (store_place self.entry.clock domain.now (contents self.entry.table.now self.entry.texts.now)) }
    {
        self.check(domain)?;
        check_policy(id, policy)?;
        let place = match self.own_entry(domain) {
            Some(own) => Some(own.place),
            None => self.other_place(),
        };
        place.ok_or(Refusal::TableFull)
    }

    // The place of the domain's live policy.
    fn live_place(self, domain: &[u8]) -> Result<usize, Refusal>
        ensures { agrees result (found_refusal self.entry.clock domain.now self.entry.table.now self.entry.texts.now) (own_place domain.now (contents self.entry.table.now self.entry.texts.now)) }
    {
        self.check(domain)?;
        match self.own_entry(domain) {
            Some(own) if own.live => Ok(own.place),
            _ => Err(Refusal::NotFound),
        }
    }

    // The answer to a lookup that found the entry at a place.
    fn answer_at(self, place: usize) -> CacheAnswer
        requires { (place < length self.table.now) × (length self.table.now ≡ 64) }
        ensures { result ≡ answer_at place self.entry.table.now self.entry.texts.now }
    {
        let e = &self.table[place];
        let id = unfilled_part(&e.id);
        CacheAnswer {
            number: 15,
            length: 0,
            text_start: (ROOM * place) as u64,
            text_length: self.text_of(place, e).len() as u64,
            fetched: e.fetched,
            id_length: id.len() as u64,
            id: filled(id),
        }
    }
}

// What a store is refused for by its id and its policy.
#[tactic(auto, unfolding(crate::specs::Search::agrees, crate::specs::Search::number_of, crate::specs::Held::is_policy, lists::specs::Check::refusal_of))]
fn check_policy(id: &[u8], policy: &[u8]) -> Result<(), Refusal>
    ensures { agrees result (refusal_of (policy_checks id.now policy.now)) tt }
{
    if !txt::is_id(id) {
        return Err(Refusal::BadId);
    }
    let number = policies::read_policy(policy).number;
    if number != policies::ACCEPTED {
        return Err(Refusal::BadPolicy(number));
    }
    if ROOM < policy.len() {
        return Err(Refusal::TextLong);
    }
    Ok(())
}

// A text filled up with zeros to N bytes; only zeros where it is longer.
#[tactic(auto, unfolding(crate::specs::Held::filled, lists::specs::Write::wrote_front))]
fn filled<const N: usize>(s: &[u8]) -> [u8; N]
    ensures { result ≡ filled N s.now }
{
    let mut field = [0; N];
    if s.len() <= N {
        field[..s.len()].copy_from_slice(s);
    }
    field
}

// The entry that a store writes.
#[tactic(auto, unfolding(crate::specs::Store::entry_for))]
fn entry_for<'a>(clock: u64, domain: &'a [u8], id: &'a [u8], policy: &'a [u8]) -> CacheEntry
    ensures { result ≡ entry_for clock domain.now id.now policy.now }
{
    CacheEntry {
        domain: filled(domain),
        id: filled(id),
        fetched: clock,
        length: policy.len() as u64,
    }
}

// Keeps a domain's policy, with its id and the call's clock as that of the fetch. What it leaves is also what two passes that give each entry a rank plan.
pub fn store<'a, 'b, 'c>(
    clock: u64,
    domain: &'a [u8],
    id: &'a [u8],
    policy: &'a [u8],
    table: &'b mut [CacheEntry],
    texts: &'c mut [u8],
) -> WriteAnswer
    ensures answer { result ≡ store_answer clock domain.now id.now policy.now table.old texts.old }
    ensures table_after { table.new ≡ table_after clock domain.now id.now policy.now table.old texts.old }
    ensures texts_after { texts.new ≡ texts_after clock domain.now id.now policy.now table.old texts.old }
    ensures by_ranks { Planned (plan_for clock domain.now id.now policy.now table.old texts.old) policy.now result table.old table.new texts.old texts.new }
{
    let cache = Cache {
        clock,
        table,
        texts,
    };
    match cache.place_for(domain, id, policy) {
        Ok(place) => {
            table[place] = entry_for(clock, domain, id, policy);
            writing::put(policy, texts, ROOM * place);
            writing::done(0)
        }
        Err(refusal) => writing::refused(u64::from(refusal)),
    }
}

// An answer with its number only.
#[tactic(auto, unfolding(crate::specs::Lookup::only_number))]
fn only_number(number: u64) -> CacheAnswer
    ensures { result ≡ only_number number }
{
    CacheAnswer {
        number,
        length: 0,
        text_start: 0,
        text_length: 0,
        fetched: 0,
        id_length: 0,
        id: [0; 32],
    }
}

// The live policy that the table holds for a domain; also what a pass that gives each entry a rank finds.
pub fn lookup(clock: u64, domain: &[u8], table: &[CacheEntry], texts: &[u8]) -> CacheAnswer
    ensures answer { result ≡ lookup_answer clock domain.now table.now texts.now }
    ensures by_ranks { result ≡ answer_from clock domain.now (length table.now) texts.now (own_scanned clock domain.now table.now texts.now) }
{
    let cache = Cache {
        clock,
        table,
        texts,
    };
    match cache.live_place(domain) {
        Ok(place) => cache.answer_at(place),
        Err(refusal) => only_number(u64::from(refusal)),
    }
}
