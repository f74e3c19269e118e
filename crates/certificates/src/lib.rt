// Certificate facts: their limits, and what DANE and MTA-STS ask of them (RFC 7672, RFC 8461).
#![tactic(auto)]

ghost use Rattle.std.specs.Prelude.{◌≡◌, true, false, ◌&&◌, [], ◌∷◌, ◌+◌, ◌*◌, ◌-◌, ◌<◌, ◌≤◌, eqb, leb, length, get_or, take, drop};
ghost use Rattle.lists.specs.Bytes.{all, any};
ghost use Rattle.lists.specs.Equal.{same_bytes};
ghost use Rattle.numbers.specs.Numbers.{numbers};
ghost use Rattle.numbers.specs.Pieces.{cut, pieces_in};
ghost use Rattle.names.specs.Name.{some_matches};
ghost use Rattle.tlsa.specs.Record.{matching_type_of, usable};
ghost use Rattle.tlsa.specs.Answer.{records_in};
ghost use Rattle.certificates.specs.Facts.{digest_at, certificate_at, certificates_of, certificates_in, text_in, presented_by};
ghost use Rattle.certificates.specs.Limits.{one_for_each, names_fit, chain_keeps, names_keep, facts_keep, yes_no};
ghost use Rattle.certificates.specs.Steps.{digest_start, digest_on_path, any_place, sha512_of, with_record, ignored_beside, passes, match_of, places_fit};
ghost use Rattle.certificates.specs.Checks.{compared, matches_certificate, matches_on_path, leaf_of, after_leaf, further_reference, references, references_in, leaf_names, names_reference, dane_passes, shows_host};

use numbers::{Pieces, Words};

// The origin of the host list: secure MX, insecure MX, or no MX, where the host is the next-hop itself.
#[derive(Clone, Copy)]
pub enum Origin {
    SecureMx,
    InsecureMx,
    NoMx,
}

// What a leaf may be named by: the origin of the host list decides which of the names count.
#[derive(Clone, Copy)]
pub struct ReferenceNames<'a> {
    pub origin: Origin,
    pub domain: &'a [u8],
    pub next_hop: &'a [u8],
    pub expanded_next_hop: Option<&'a [u8]>,
}

// The certificates of a call, leaf first, one after another, with the list of their lengths. For each of them the key places have two numbers, start and length of its key info,
// the digests 192 bytes and the paths one number. (Parallel lists: the C interface.)
#[derive(Clone, Copy)]
pub struct Chain<'a> {
    pub certificates: &'a [u8],
    pub lengths: &'a [u8],
    pub key_places: &'a [u8],
    pub digests: &'a [u8],
    pub paths: &'a [u8],
}

// The certificate facts of a call: the certificates, whether the path ends in a trusted root, unexpired, and the names of the leaf.
#[derive(Clone, Copy)]
pub struct CertificateFacts<'a> {
    pub chain: Chain<'a>,
    pub trusted_root: bool,
    pub dns_ids: Pieces<'a>,
    pub common_name: Option<&'a [u8]>,
}

// How a record, or a set of them, matches the certificates: without names, only with the leaf naming a reference, or not.
#[derive(Clone, Copy)]
enum Match {
    Unnamed,
    Named,
    Nothing,
}

// Pairs of a usage, DANE-TA (2) or DANE-EE (3), and a selector, certificate (0) or key info (1): whether a set has a usable SHA-512 record of each.
#[derive(Clone, Copy)]
struct Sha512Pairs {
    ta_certificate: bool,
    ta_key: bool,
    ee_certificate: bool,
    ee_key: bool,
}

// Where the digest starts that a record of this selector and matching type, 1 or 2, is compared with, among the 192 bytes of digests of a certificate.
#[tactic(auto, using(crate::proofs::FactsReturns::digest_start_laws))]
fn digest_start(selector: u8, matching_type: u8) -> u8
    ensures { result ≡ digest_start selector matching_type }
{
    match (selector, matching_type) {
        (0, 1) => 0,
        (0, _) => 32,
        (_, 1) => 96,
        _ => 128,
    }
}

// Whether the record is usable and has matching type 2, SHA-512. Such a record has 67 bytes: three, and a digest of 64.
#[tactic(auto, using(crate::proofs::Strongest::kind_laws))]
fn is_sha512(entry: &[u8]) -> bool
    ensures { result ≡ (usable entry.now && eqb (matching_type_of entry.now) 2) }
{
    if entry.len() != 67 {
        return false;
    }
    if !tlsa::is_usable(entry) {
        return false; // no record is ignored because of it
    }
    entry[2] == 2
}

impl Sha512Pairs {
    // The pairs with one record more.
    #[tactic(auto, using(crate::proofs::Strongest::with_laws))]
    fn with(self, entry: &[u8]) -> Sha512Pairs
        ensures { result ≡ with_record self entry.now }
    {
        if !is_sha512(entry) {
            return self;
        }
        let mut more = self;
        match (entry[0], entry[1]) {
            (2, 0) => more.ta_certificate = true,
            (2, _) => more.ta_key = true,
            (_, 0) => more.ee_certificate = true,
            _ => more.ee_key = true,
        }
        more
    }

    // The pairs of which a set has a usable SHA-512 record. It is gone through once.
    #[tactic(auto, using(crate::proofs::Strongest::sha512_laws))]
    fn of(set: Pieces<'_>) -> Sha512Pairs
        ensures { result ≡ sha512_of (records_in set.entry) }
    {
        let mut found = Sha512Pairs {
            ta_certificate: false,
            ta_key: false,
            ee_certificate: false,
            ee_key: false,
        };
        for entry in set {
            found = found.with(entry);
        }
        found
    }

    // Whether a record of the set, if it is usable, is ignored: it is SHA-256, and there is SHA-512 of its usage and selector.
    #[tactic(auto, using(crate::proofs::Strongest::ignored_laws))]
    fn ignores(self, entry: &[u8]) -> bool
        ensures { result ≡ ignored_beside self entry.now }
    {
        if entry.len() < 3 {
            return false;
        }
        if entry[2] != 1 {
            return false;
        }
        match (entry[0], entry[1]) {
            (2, 0) => self.ta_certificate,
            (2, _) => self.ta_key,
            (_, 0) => self.ee_certificate,
            _ => self.ee_key,
        }
    }
}

impl<'a> Chain<'a> {
    // The certificates, one after another.
    fn certificates(&self) -> Pieces<'a>
        ensures { pieces_in result ≡ cut self.now.certificates.now (numbers self.now.lengths.now) }
    {
        Pieces {
            bytes: self.certificates,
            lengths: self.lengths,
        }
    }

    // Whether the path flag of the certificate at place k holds.
    #[tactic(auto, using(crate::proofs::FactsReturns::on_path_laws))]
    fn is_on_path(&self, k: usize) -> bool
        ensures { result ≡ eqb (get_or (numbers self.now.paths.now) k 0) 1 }
    {
        numbers::number(self.paths, k) == 1
    }

    // Whether `held` is the digest that starts at the byte `from` of those of the certificate at place k.
    #[tactic(auto, using(crate::proofs::FactsReturns::digest_laws))]
    fn is_digest(&self, held: &[u8], from: u8, k: usize) -> bool
        requires { (1 ≤ length held.now) × (length held.now ≤ 64) }
        ensures { result ≡ same_bytes held.now (digest_at self.now.digests.now k from (length held.now)) }
    {
        if self.digests.len() / 192 < k {
            return false;
        }
        let start = k * 192 + usize::from(from);
        let end = start + held.len();
        if self.digests.len() < end {
            return false;
        }
        lists::equal(held, &self.digests[start..end])
    }

    // Whether `held` is a digest of a certificate after the leaf whose path flag holds. The certificates themselves are not looked at.
    #[tactic(auto, using(crate::proofs::FactsReturns::place_test_laws))]
    fn is_digest_after_leaf(&self, held: &[u8], from: u8) -> bool
        requires { (1 ≤ length held.now) × (length held.now ≤ 64) }
        ensures { result ≡ any_place (digest_on_path held.now from self.now.digests.now self.now.paths.now) 1 (length (numbers self.now.lengths.now) - 1) }
    {
        let n = numbers::count(self.lengths);
        for place in 1..n {
            if !self.is_on_path(place) {
                continue;
            }
            if self.is_digest(held, from, place) {
                return true;
            }
        }
        false
    }

    // Where the key info of the certificate at place k starts, and how many bytes it has.
    #[inline(always)]
    #[tactic(auto, using(crate::proofs::FactsReturns::place_laws))]
    fn key_place(&self, k: usize) -> (u64, u64)
        ensures start { (result.0 ≡ get_or (numbers self.now.key_places.now) (k * 2) 0) × (result.0 < 4294967296) }
        ensures size { (result.1 ≡ get_or (numbers self.now.key_places.now) (k * 2 + 1) 0) × (result.1 < 4294967296) }
    {
        if self.key_places.len() / 8 < k {
            return (0, 0);
        }
        let start = numbers::number(self.key_places, k * 2);
        let size = numbers::number(self.key_places, k * 2 + 1);
        (start, size)
    }

    // The key info of the certificate at place k.
    #[inline(always)]
    #[tactic(auto, using(crate::proofs::FactsReturns::key_info_laws))]
    fn key_info_at<'c>(&self, k: usize, certificate: &'c [u8]) -> &'c [u8]
        ensures { result.now ≡ take (get_or (numbers self.now.key_places.now) (k * 2 + 1) 0) (drop (get_or (numbers self.now.key_places.now) (k * 2) 0) certificate.now) }
    {
        let (start, size) = self.key_place(k);
        numbers::part(certificate, start as usize, size)
    }

    // Whether `held` is the certificate at place k (selector 0) or its key info: what a record of matching type 0 is compared with.
    #[inline(always)]
    #[tactic(auto, using(crate::proofs::Matching::compared_laws))]
    fn is_compared(&self, held: &[u8], selector: u8, k: usize, certificate: &[u8]) -> bool
        ensures { result ≡ same_bytes held.now (compared selector 0 (certificate_at self.now.key_places.now [] [] k certificate.now)) }
    {
        if selector == 0 {
            return lists::equal_long(held, certificate);
        }
        lists::equal_long(held, self.key_info_at(k, certificate))
    }

    // Whether the record, of matching type 0, matches the certificate at place k. No path flag is read.
    #[inline(always)]
    #[tactic(auto, using(crate::proofs::Matching::matches_laws))]
    fn matches_certificate(&self, entry: &[u8], k: usize, certificate: &[u8]) -> bool
        requires { (3 ≤ length entry.now) × (matching_type_of entry.now ≡ 0) }
        ensures { result ≡ matches_certificate entry.now (certificate_at self.now.key_places.now [] [] k certificate.now) }
    {
        self.is_compared(&entry[3..], entry[1], k, certificate)
    }

    // Whether the record, of matching type 0, matches a certificate after the leaf whose path flag holds.
    fn whole_after_leaf(self, entry: &[u8]) -> bool
        requires { (3 ≤ length entry.now) × (matching_type_of entry.now ≡ 0) }
        ensures { result ≡ any (matches_on_path entry.now) (after_leaf (certificates_of self.entry.certificates.now self.entry.lengths.now self.entry.key_places.now [] self.entry.paths.now)) }
    {
        let mut certificates = self.certificates().enumerate();
        let Some(_leaf) = certificates.next() else {
            return false;
        };
        for (k, certificate) in certificates {
            if !self.is_on_path(k) {
                continue;
            }
            if self.matches_certificate(entry, k, certificate) {
                return true;
            }
        }
        false
    }

    // Whether the record, a usable one, matches the leaf.
    #[tactic(auto, using(crate::proofs::Passing::leaf_laws))]
    fn matches_leaf(&self, entry: &[u8]) -> bool
        requires { usable entry.now ≡ true }
        ensures { result ≡ any (matches_certificate entry.now) (leaf_of (certificates_in self.now)) }
    {
        let Some(leaf) = self.certificates().next() else {
            return false;
        };
        if entry[2] == 0 {
            return self.matches_certificate(entry, 0, leaf);
        }
        let from = digest_start(entry[1], entry[2]);
        self.is_digest(&entry[3..], from, 0)
    }

    // Whether the record, a usable one, matches a certificate after the leaf whose path flag holds.
    #[tactic(auto, using(crate::proofs::Passing::after_laws))]
    fn matches_after_leaf(&self, entry: &[u8]) -> bool
        requires { usable entry.now ≡ true }
        ensures { result ≡ any (matches_on_path entry.now) (after_leaf (certificates_in self.now)) }
    {
        if entry[2] == 0 {
            return self.whole_after_leaf(entry);
        }
        let from = digest_start(entry[1], entry[2]);
        self.is_digest_after_leaf(&entry[3..], from)
    }

    // How the record matches: usage 3 without names, usage 2 with them, and only while `wanted`; a record that does not count does not.
    #[tactic(auto, using(crate::proofs::Passing::match_laws))]
    fn record_match(&self, entry: &[u8], found: Sha512Pairs, wanted: bool) -> Match
        ensures { result ≡ match_of (passes found false (certificates_in self.now) entry.now) (passes found wanted (certificates_in self.now) entry.now) }
    {
        if !tlsa::is_usable(entry) {
            return Match::Nothing;
        }
        if found.ignores(entry) {
            return Match::Nothing;
        }
        if entry[0] == 3 {
            if !self.matches_leaf(entry) {
                return Match::Nothing;
            }
            return Match::Unnamed;
        }
        if !wanted {
            return Match::Nothing;
        }
        if !self.matches_after_leaf(entry) {
            return Match::Nothing;
        }
        Match::Named
    }

    // How the set matches. It is gone through once: after a match by usage 2, only usage 3 can still do without names.
    fn set_match(&self, set: Pieces<'_>) -> Match
        ensures { result ≡ match_of (any (passes (sha512_of (records_in set.entry)) false (certificates_in self.now)) (records_in set.entry)) (any (passes (sha512_of (records_in set.entry)) true (certificates_in self.now)) (records_in set.entry)) }
    {
        let found = Sha512Pairs::of(set);
        let mut wanted = true;
        for entry in set {
            match self.record_match(entry, found, wanted) {
                Match::Unnamed => return Match::Unnamed,
                Match::Named => wanted = false,
                Match::Nothing => {}
            }
        }
        if wanted {
            return Match::Nothing; // no record matched, so nobody is authenticated
        }
        Match::Named
    }

    // Whether the place of the key info at place k lies inside a certificate of so many bytes.
    #[inline(always)]
    #[tactic(auto, using(crate::proofs::Limits::inside_laws))]
    fn is_inside(&self, bytes: u64, k: usize) -> bool
        ensures { result ≡ leb (get_or (numbers self.now.key_places.now) (k * 2) 0 + get_or (numbers self.now.key_places.now) (k * 2 + 1) 0) bytes }
    {
        let (start, size) = self.key_place(k);
        start + size <= bytes
    }

    // Whether each place does, of n certificates.
    #[inline(always)]
    #[tactic(auto, using(crate::proofs::Limits::places_laws))]
    fn places_fit(&self, n: usize) -> bool
        requires { n ≡ length (numbers self.now.lengths.now) }
        ensures { result ≡ places_fit (numbers self.now.key_places.now) 0 (numbers self.now.lengths.now) }
    {
        for k in 0..n {
            if !self.is_inside(numbers::number(self.lengths, k), k) {
                return false;
            }
        }
        true
    }

    // Whether the other lists have what belongs to each of n certificates, and no more.
    #[inline(always)]
    #[tactic(auto, using(crate::proofs::Limits::one_for_each_laws))]
    fn has_one_for_each(&self, n: usize) -> bool
        requires { n ≤ 8 }
        ensures { result ≡ one_for_each n self.now.key_places.now self.now.digests.now self.now.paths.now }
    {
        if self.key_places.len() != n * 8 {
            return false;
        }
        self.digests.len() == n * 192 && self.paths.len() == n * 4
    }

    // Whether the certificates keep the limits.
    #[inline(always)]
    #[tactic(auto, using(crate::proofs::Limits::chain_laws))]
    pub fn fits(&self) -> bool
        ensures { result ≡ chain_keeps self.now }
    {
        let n = numbers::count(self.lengths);
        if 8 < n {
            return false;
        }
        if !numbers::fits(self.lengths, self.certificates.len(), 16384) {
            return false;
        }
        if 65536 < self.certificates.len() {
            return false;
        }
        self.has_one_for_each(n) && self.places_fit(n)
    }
}

impl CertificateFacts<'_> {
    // Whether a name of the leaf that counts matches the reference.
    #[tactic(auto, using(crate::proofs::Naming::leaf_names_laws))]
    fn has_name(&self, reference: &[u8]) -> bool
        ensures { result ≡ some_matches (leaf_names (records_in self.now.dns_ids) (text_in self.now.common_name)) reference.now }
    {
        if numbers::count(self.dns_ids.lengths) != 0 {
            return names::some_match(self.dns_ids.bytes, self.dns_ids.lengths, reference);
        }
        match self.common_name {
            Some(name) => names::matches(name, reference),
            None => false,
        }
    }

    // Whether it matches the next-hop, or the expanded next-hop where that is given. The two are not compared: where they are the same name,
    // the second is matched as the first was.
    #[tactic(auto, using(crate::proofs::Naming::next_hop_laws))]
    fn names_next_hop(&self, names: &ReferenceNames<'_>) -> bool
        ensures { result ≡ any (some_matches (leaf_names (records_in self.now.dns_ids) (text_in self.now.common_name))) (names.now.next_hop.now ∷ further_reference names.now.next_hop.now (text_in names.now.expanded_next_hop)) }
    {
        if self.has_name(names.next_hop) {
            return true;
        }
        match names.expanded_next_hop {
            Some(name) => self.has_name(name),
            None => false,
        }
    }

    // Whether it matches one of the references.
    #[tactic(auto, using(crate::proofs::Naming::reference_laws))]
    fn names_reference(&self, names: &ReferenceNames<'_>) -> bool
        ensures { result ≡ any (some_matches (leaf_names (records_in self.now.dns_ids) (text_in self.now.common_name))) (references_in names.now) }
    {
        if self.has_name(names.domain) {
            return true;
        }
        match names.origin {
            Origin::SecureMx => self.names_next_hop(names),
            Origin::InsecureMx => false,
            Origin::NoMx => self.has_name(names.next_hop),
        }
    }

    // Whether DANE passes with the set that was found at the domain. The leaf's names are looked at only where usage 2 may pass by them.
    #[tactic(auto, using(crate::proofs::Checks::dane_laws))]
    pub fn dane_passes(&self, set: Pieces<'_>, names: &ReferenceNames<'_>) -> bool
        ensures { result ≡ dane_passes (references_in names.now) (records_in set.entry) (presented_by self.now) }
    {
        match self.chain.set_match(set) {
            Match::Unnamed => true,
            Match::Named => self.names_reference(names),
            Match::Nothing => false,
        }
    }

    // Whether the facts pass what MTA-STS asks of them for the host.
    #[tactic(auto, using(crate::proofs::Checks::host_laws))]
    pub fn shows_host(&self, host: &[u8]) -> bool
        ensures { result ≡ shows_host host.now (presented_by self.now) }
    {
        if !self.trusted_root {
            return false;
        }
        if numbers::count(self.chain.lengths) == 0 {
            return false;
        }
        names::some_match(self.dns_ids.bytes, self.dns_ids.lengths, host)
    }

    // Whether the names of the leaf keep the limits.
    #[inline(always)]
    #[tactic(auto, using(crate::proofs::Limits::names_fit_laws))]
    pub fn names_fit(&self) -> bool
        ensures { result ≡ names_keep self.now }
    {
        if 64 < numbers::count(self.dns_ids.lengths) {
            return false;
        }
        if !numbers::fits(self.dns_ids.lengths, self.dns_ids.bytes.len(), 255) {
            return false;
        }
        match self.common_name {
            Some(name) => name.len() <= 255,
            None => true,
        }
    }

    // Whether the facts keep the limits.
    #[inline(always)]
    #[tactic(auto, using(crate::proofs::Limits::facts_laws))]
    pub fn fits(&self) -> bool
        ensures { result ≡ facts_keep self.now }
    {
        self.chain.fits() && self.names_fit()
    }
}

// Whether the number is a yes or a no.
#[tactic(auto, unfolding(crate::specs::Limits::yes_no))]
pub fn is_yes_no(n: u64) -> bool
    ensures { result ≡ yes_no n }
{
    matches!(n, 1 | 2)
}

// Whether each number of the paths is a yes or a no.
pub fn all_yes_no(paths: &[u8]) -> bool
    ensures { result ≡ all yes_no (numbers paths.now) }
{
    (Words { list: paths }).all(|n| is_yes_no(u64::from(n)))
}
