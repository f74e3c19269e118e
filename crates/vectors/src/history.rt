// The lines about a policy cache. A cache lives on from line to line, up to the next `cache_new` or the file's end:
//
//   cache_new ENTRIES TEXTS: an empty cache, all zeros, of so many entries and bytes of texts.
//   cache_entries FIRST LAST DOMAIN ID FETCHED LENGTH TEXT: the entries at these places, domain and id filled up with zeros, and a text in
//     the room of each. NN as the domain's second and third byte is the place's two digits.
//   cache_store NAME CLOCK DOMAIN ID POLICY => number length PLACE: a store. PLACE is where it writes, and left out where it writes nothing.
//   cache_lookup NAME CLOCK DOMAIN => number length text_start fetched ID TEXT: a lookup. ID and TEXT say id_length and text_length too.
//
// After a store the whole cache is compared: the entry at PLACE is the one that the arguments make, its text stands in its room, and
// all else is as before. The lines after it go on from the cache that the case asks for, so that one fault is not reported twice.
ghost use Rattle.std.specs.Prelude.{◌≡◌, ◌++◌, ◌≤◌, length, take, drop, vec_len};
ghost use Rattle.cache.specs.Store.{store_answer, table_after, texts_after};
ghost use Rattle.cache.specs.Lookup.{lookup_answer};

use crate::calls;
use crate::failure::Failure::{Differs, Unreadable};
use crate::failure::{Failure, Outcome};
use crate::line::Line;
use cache::{CacheAnswer, CacheEntry};
use std::alloc::{AllocError, Global};
use writing::WriteAnswer;

// The most entries of a table and the most bytes of texts that a case can lend: one more than a cache has.
const TABLE_ROOM: usize = 65;

const TEXTS_ROOM: usize = 65537;

// What an entry's text has of the texts.
const TEXT_ROOM: usize = 1024;

// A table and texts, and how many of their entries and bytes a call is lent.
#[derive(Drop)]
pub struct Cache {
    entries: usize,
    size: usize,
    table: Vec<CacheEntry>,
    texts: Vec<u8>,
    ghost table_room: { vec_len table ≡ 65 },
    ghost texts_room: { vec_len texts ≡ 65537 },
    ghost entries_fit: { entries ≤ 65 },
    ghost size_fits: { size ≤ 65537 },
}

impl Cache {
    pub(crate) fn new(alloc: Global, entries: usize, size: usize) -> Result<Cache, AllocError>
        requires { (entries ≤ 65) × (size ≤ 65537) }
    {
        Ok(Cache {
            entries,
            size,
            table: vec![in alloc; cache::no_entry(); TABLE_ROOM]?,
            texts: vec![in alloc; 0u8; TEXTS_ROOM]?,
        })
    }

    // Runs a line on the cache that the lines before it left.
    pub(crate) fn run(
        &mut self,
        alloc: Global,
        line: &Line,
        default: Option<&Line>,
    ) -> Result<Outcome, Failure> {
        match line.bytes_at(0) {
            b"cache_new" => self.begin(alloc, line),
            b"cache_entries" => self.fill(line),
            b"cache_store" => self.store(alloc, line),
            b"cache_lookup" => self.lookup(alloc, line),
            _ => calls::run(alloc, line, default),
        }
    }

    fn begin(&mut self, alloc: Global, line: &Line) -> Result<Outcome, Failure> {
        let mut fields = line.arguments()?;
        let entries = fields.number()? as usize;
        let size = fields.number()? as usize;
        fields.end()?;
        if entries > TABLE_ROOM || size > TEXTS_ROOM {
            return Err(Unreadable);
        }
        *self = Cache::new(alloc, entries, size)?;
        Ok(Outcome::SetUp)
    }

    fn fill(&mut self, line: &Line) -> Result<Outcome, Failure> {
        let mut fields = line.arguments()?;
        let first = fields.number()? as usize;
        let last = fields.number()? as usize;
        let domain = fields.bytes()?;
        let id = fields.bytes()?;
        let fetched = fields.number()?;
        let length = fields.number()?;
        let text = fields.bytes()?;
        fields.end()?;
        if last >= TABLE_ROOM || domain.len() > 253 || id.len() > 32 || text.len() > TEXT_ROOM {
            return Err(Unreadable);
        }
        let entry = entry_of(domain, id, fetched, length);
        for place in first..=last {
            self.put(place, numbered(entry, place), text);
        }
        Ok(Outcome::SetUp)
    }

    // The store is made on a copy; the cache itself becomes what the case asks for, even where the rest of the line can't be read.
    fn store(&mut self, alloc: Global, line: &Line) -> Result<Outcome, Failure> {
        let before = Cache {
            entries: self.entries,
            size: self.size,
            table: self.table.clone()?,
            texts: self.texts.clone()?,
        };
        if line.fields.len() > 9 {
            let text = line.bytes_at(5);
            let entry = entry_of(
                line.bytes_at(3),
                line.bytes_at(4),
                line.number_at(2),
                text.len() as u64,
            );
            self.put(line.number_at(9) as usize, entry, text);
        }
        self.compare_store(alloc, line, before)
    }

    // Makes the store of a line, and compares the cache that it leaves with this one, then the answer.
    fn compare_store(&self, alloc: Global, line: &Line, got: Cache) -> Result<Outcome, Failure> {
        let mut fields = line.case()?;
        let clock = fields.number()?;
        let domain = fields.bytes()?;
        let id = fields.bytes()?;
        let policy = fields.bytes()?;
        let expected = fields.answer()?;
        if line.fields.len() > 9 {
            fields.number()?;
        }
        fields.end()?;
        let Cache {
            entries,
            size,
            mut table,
            mut texts,
        } = got;
        let r = store_first(
            clock, domain, id, policy, entries, &mut table, size, &mut texts,
        );
        if table != self.table {
            return Err(Differs("table differs"));
        }
        if texts != self.texts {
            return Err(Differs("texts differ"));
        }
        calls::compared(alloc, expected, [r.number, r.length])
    }

    fn lookup(&self, alloc: Global, line: &Line) -> Result<Outcome, Failure> {
        let mut fields = line.case()?;
        let clock = fields.number()?;
        let domain = fields.bytes()?;
        let expected = fields.answer()?;
        let id = fields.bytes()?;
        let text = fields.bytes()?;
        fields.end()?;
        let texts = &self.texts[..self.size];
        let r = look_up_first(clock, domain, self.entries, &self.table, texts);
        if r.id_length != id.len() as u64 || r.id != filled_up(id) {
            return Err(Differs("id differs"));
        }
        if r.text_length != text.len() as u64
            || part(texts, r.text_start as usize, text.len()) != text
        {
            return Err(Differs("text differs"));
        }
        calls::compared(
            alloc,
            expected,
            [r.number, r.length, r.text_start, r.fetched],
        )
    }

    // Puts an entry at a place and a text in its room; does nothing where there is no such place.
    fn put(&mut self, place: usize, entry: CacheEntry, text: &[u8]) {
        if place < TABLE_ROOM {
            self.table[place] = entry;
            put(&mut self.texts, TEXT_ROOM * place, text);
        }
    }
}

// A store by the library's call, which is lent the first entries of a table and the first bytes of texts, as many as asked for and there are.
#[tactic(auto, using(std::proofs::lemmas::List::take_min, std::proofs::lemmas::List::drop_min))]
fn store_first(
    clock: u64,
    domain: &[u8],
    id: &[u8],
    policy: &[u8],
    entries: usize,
    table: &mut [CacheEntry],
    size: usize,
    texts: &mut [u8],
) -> WriteAnswer
    ensures answer { result ≡ store_answer clock domain.now id.now policy.now (take entries table.old) (take size texts.old) }
    ensures table { table.new ≡ table_after clock domain.now id.now policy.now (take entries table.old) (take size texts.old) ++ drop entries table.old }
    ensures texts { texts.new ≡ texts_after clock domain.now id.now policy.now (take entries table.old) (take size texts.old) ++ drop size texts.old }
{
    let entries = entries.min(table.len());
    let size = size.min(texts.len());
    let table = &mut table[..entries];
    let texts = &mut texts[..size];
    tweedstork::tweedstork_cache_store(clock, domain, id, policy, table, texts)
}

// A lookup by the library's call, which is lent the first entries of a table, as many as asked for and there are.
#[tactic(auto, using(std::proofs::lemmas::List::take_min))]
fn look_up_first(
    clock: u64,
    domain: &[u8],
    entries: usize,
    table: &[CacheEntry],
    texts: &[u8],
) -> CacheAnswer
    ensures { result ≡ lookup_answer clock domain.now (take entries table.now) texts.now }
{
    let entries = entries.min(table.len());
    tweedstork::tweedstork_cache_lookup(clock, domain, &table[..entries], texts)
}

// Puts bytes at a place, where there is room for them.
fn put(out: &mut [u8], at: usize, s: &[u8]) {
    if let Some(room) = out.get_mut(at..).and_then(|rest| rest.get_mut(..s.len())) {
        room.copy_from_slice(s);
    }
}

// So many bytes at a place, or none where they don't all lie inside.
fn part(s: &[u8], start: usize, size: usize) -> &[u8] {
    s.get(start..)
        .and_then(|rest| rest.get(..size))
        .unwrap_or(&[])
}

// Bytes with zeros after them; zeros alone where they are too many.
fn filled_up<const N: usize>(s: &[u8]) -> [u8; N] {
    let mut out = [0; N];
    put(&mut out, 0, s);
    out
}

fn entry_of(domain: &[u8], id: &[u8], fetched: u64, length: u64) -> CacheEntry {
    CacheEntry {
        domain: filled_up(domain),
        id: filled_up(id),
        fetched,
        length,
    }
}

// The entry with the two digits of a place for NN in its domain.
fn numbered(mut entry: CacheEntry, place: usize) -> CacheEntry {
    if let [_, b'N', b'N', ..] = entry.domain {
        entry.domain[1] = b'0' + (place / 10 % 10) as u8;
        entry.domain[2] = b'0' + (place % 10) as u8;
    }
    entry
}
