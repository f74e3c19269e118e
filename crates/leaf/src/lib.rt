// The leaf certificate: what is read of it, and the places of its names.
#![tactic(auto)]

ghost use Rattle.std.specs.Prelude.{◌≡◌, [], ◌∷◌, ◌++◌, ◌<◌, ◌≤◌, ◌-◌, ◌*◌, ◌^◌, length, drop};
ghost use Rattle.std.specs.Iterator.{YieldsFirst, item_count};
ghost use Rattle.leaf.specs.declared.ReadError.TheVariants.{Malformed};
ghost use Rattle.leaf.specs.Names.{dns_ids_from, dns_ids_of, ids_left, first_of};
ghost use Rattle.leaf.specs.Read.{sixteen, places_text, accepted, refusal, read_leaf, read_certificate, wrote_places};

use der::Fault;
use reader::Reader;
use x509::{Found, Part};

// The most DNS-IDs that a certificate may have.
const DNS_IDS_AT_MOST: usize = 64;

// Why a certificate is refused: a fault, or more DNS-IDs than are read.
#[derive(Clone, Copy, Debug, PartialEq, Eq)]
pub enum ReadError {
    Malformed(Fault),
    ManyDnsIds,
}

impl From<Fault> for ReadError {
    ghost from_gives = { λ f e. e ≡ Malformed f };

    fn from(fault: Fault) -> ReadError {
        ReadError::Malformed(fault)
    }
}

// The answer of the call that reads a certificate.
#[repr(C)]
#[derive(Clone, Copy)]
pub struct CertificateAnswer {
    pub number: u64,
    pub length: u64,
    pub offset: u64,
    pub key_start: u64,
    pub key_length: u64,
    pub dns_id_count: u64,
    pub common_name_given: u64,
    pub common_name_start: u64,
    pub common_name_length: u64,
}

// The first DNS-ID from `at` on: at sight where it stands there with a length of one byte, else a reader looks for it.
#[inline(always)]
#[tactic(auto, using(crate::proofs::Names::next_laws))]
pub fn next_dns_id(s: &[u8], at: usize) -> Option<Part>
    ensures { result ≡ first_of (dns_ids_from s.now at) }
{
    if s.len() < 2 {
        return None;
    }
    if at <= s.len() - 2 && s[at] == x509::DNS_NAME {
        let size = usize::from(s[at + 1]);
        let start = at + 2;
        if size < 128 && start + size <= s.len() {
            return Some(Part {
                start,
                end: start + size,
            });
        }
    }
    dns_id_further(s, at)
}

// The same, by a reader that moves from element to element.
#[inline(never)]
#[tactic(auto, using(crate::proofs::Names::next_laws))]
fn dns_id_further(s: &[u8], at: usize) -> Option<Part>
    ensures { result ≡ first_of (dns_ids_from s.now at) }
{
    for head in Reader::new(s, at) {
        if head.tag == x509::DNS_NAME {
            return Some(Part {
                start: head.start,
                end: head.end,
            });
        }
    }
    None
}

// The DNS-IDs from a place on: an iterator over their parts.
#[derive(Clone, Copy)]
pub struct DnsIds<'a> {
    pub src: &'a [u8],
    pub at: usize,
}

impl<'a> Iterator for DnsIds<'a> {
    type Item = Part;

    ghost next_gives = { YieldsFirst ids_left };

    ghost remaining = { item_count ids_left };

    #[inline(always)]
    #[tactic(auto, using(crate::proofs::Names::turn_laws))]
    fn next(&mut self) -> Option<Part> {
        let id = next_dns_id(self.src, self.at)?;
        self.at = id.end;
        Some(id)
    }
}

// The DNS-IDs of a certificate in which that was found.
#[tactic(auto, unfolding(crate::specs::Names::dns_ids_of))]
pub fn dns_ids_of<'a>(s: &'a [u8], found: Found) -> DnsIds<'a>
    ensures { ids_left result ≡ dns_ids_of s.entry.now found }
{
    DnsIds {
        src: der::front(s, found.alternatives.end),
        at: found.alternatives.start,
    }
}

// How many they are.
fn count(ids: DnsIds<'_>) -> usize
    ensures { result ≡ length (ids_left ids.entry) }
{
    ids.count()
}

// How many bytes a part has.
pub fn size_of(p: Part) -> usize
    ensures { result ≡ p.end - p.start }
{
    p.end.saturating_sub(p.start)
}

// The place of a part: its start and its length, eight bytes each, high first.
#[tactic(auto, using(crate::proofs::Writing::place_is))]
fn place_of(p: Part) -> [u8; 16]
    ensures { result ≡ sixteen p }
{
    let mut place = [0; 16];
    place[..8].copy_from_slice(&p.start.to_be_bytes());
    place[8..].copy_from_slice(&size_of(p).to_be_bytes());
    place
}

// Writes the places of DNS-IDs over the front of the output, which has room for them.
fn write_places(ids: DnsIds<'_>, output: &mut [u8])
    requires { length (places_text (ids_left ids)) ≤ length output.old }
    ensures { output.new ≡ places_text (ids_left ids.entry) ++ drop (length (places_text (ids_left ids.entry))) output.old }
{
    // n beside the items: each turn writes into what the one before has left of the output.
    let mut n = 0;
    for id in ids {
        output[n..n + 16].copy_from_slice(&place_of(id));
        n += 16;
    }
}

// What is read of a certificate.
#[tactic(auto, using(crate::proofs::Answers::read_laws))]
pub fn read_leaf(s: &[u8]) -> Result<Found, ReadError>
    ensures { result ≡ read_leaf s.now }
{
    let found = usual::fields_of(s)?;
    if DNS_IDS_AT_MOST < count(dns_ids_of(s, found)) {
        return Err(ReadError::ManyDnsIds);
    }
    Ok(found)
}

// A refusal: its number, and where something is wrong.
fn refused(number: u64, offset: usize) -> CertificateAnswer
    ensures { result ≡ refusal number offset }
{
    CertificateAnswer {
        number,
        length: 0,
        offset: offset as u64,
        key_start: 0,
        key_length: 0,
        dns_id_count: 0,
        common_name_given: 0,
        common_name_start: 0,
        common_name_length: 0,
    }
}

// The answer of a certificate that is read, with n DNS-IDs.
#[tactic(auto, using(crate::proofs::Answers::accepted_laws))]
fn accepted(key: Part, n: usize, name: Option<Part>) -> CertificateAnswer
    requires { 16 * n < 2 ^ 64 }
    ensures { result ≡ accepted key n name }
{
    let (given, start, size) = match name {
        Some(p) => (1, p.start, size_of(p)),
        None => (2, 0, 0),
    };
    CertificateAnswer {
        number: 15,
        length: (16 * n) as u64,
        offset: 0,
        key_start: key.start as u64,
        key_length: size_of(key) as u64,
        dns_id_count: n as u64,
        common_name_given: given,
        common_name_start: start as u64,
        common_name_length: size as u64,
    }
}

// Reads a certificate, and writes the places of its DNS-IDs over the front of the lent places.
#[tactic(auto, using(crate::proofs::Answers::answer_laws))]
pub fn read_certificate(certificate: &[u8], places: &mut [u8]) -> CertificateAnswer
    ensures value { result ≡ read_certificate certificate.now (length places.old) }
    ensures places_after { places.new ≡ wrote_places certificate.now places.old }
{
    let found = match usual::fields_of(certificate) {
        Ok(found) => found,
        Err(fault) => return refused(90, fault.at),
    };
    let ids = dns_ids_of(certificate, found);
    let n = count(ids);
    if DNS_IDS_AT_MOST < n {
        return refused(91, 0);
    }
    if places.len() / 16 < n {
        return refused(writing::OUTPUT_SHORT, 0);
    }
    write_places(ids, places);
    accepted(found.key, n, found.name)
}
