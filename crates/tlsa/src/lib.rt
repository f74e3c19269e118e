// TLSA answers: their records, what a set of them needs, and the names at which they are asked for (RFC 6698, RFC 7672).
#![tactic(auto)]

ghost use Rattle.std.specs.Prelude.{◌≡◌, ◌-◌};
ghost use Rattle.lists.specs.Bytes.{any};
ghost use Rattle.tlsa.specs.Record.{short, is_usage, is_selector, data_fits, usable};
ghost use Rattle.tlsa.specs.Answer.{records_in, answer_in, set_keeps, answer_keeps, needs_of, taken_if_whole, read_of, lookup_verdict, read_verdict};
ghost use Rattle.tlsa.specs.Address.{names_to_try, meaning_of};

use numbers::Pieces;

// A TLSA answer, by how the lookup ended. A secure one has a list of records, perhaps none.
#[derive(Clone, Copy)]
pub enum TlsaAnswer<'a> {
    Secure(Pieces<'a>),
    Insecure,
    Absent,
    Failed,
}

// What a set of TLSA records needs, from the least to the most.
#[derive(Clone, Copy)]
pub enum Needs {
    Nothing,
    Tls,
    Authentication,
}

// What reading a TLSA answer comes to: the lookup failed, the set is taken, or the next name is tried. A `Result<Option<Needs>, ..>` would be no plainer: each `match` has the three arms
// all the same.
#[derive(Clone, Copy)]
pub enum Read {
    LookupFailed,
    Taken(Needs),
    NextName,
}

// The result of the lookup of a host's address.
#[derive(Clone, Copy)]
pub enum Address {
    NoAliasSecure,
    NoAliasInsecure,
    AliasSecure,
    AliasFirstStepSecure,
    AliasFirstStepInsecure,
    Failed,
    NoAddress,
}

// The TLSA names to try; or that the address lookup failed, or that there is no address: one case for each row of the rule, so that one `match` has the rule's order.
#[derive(Clone, Copy)]
pub enum Tries {
    ExpandedThenHost,
    HostOnly,
    NoName,
    AddressFailed,
    AddressMissing,
}

// Whether the usage is 2 or 3.
#[tactic(auto, unfolding(crate::specs::Record::is_usage))]
fn is_usage(usage: u8) -> bool
    ensures { result ≡ is_usage usage }
{
    matches!(usage, 2 | 3)
}

// Whether the selector is 0 or 1.
#[tactic(auto, unfolding(crate::specs::Record::is_selector))]
fn is_selector(selector: u8) -> bool
    ensures { result ≡ is_selector selector }
{
    matches!(selector, 0 | 1)
}

// Whether n bytes of data fit the matching type.
#[tactic(auto, using(crate::proofs::Record::data_laws))]
fn data_fits(matching_type: u8, n: usize) -> bool
    ensures { result ≡ data_fits matching_type n }
{
    match matching_type {
        0 => 1 <= n,
        1 => n == 32,
        2 => n == 64,
        _ => false,
    }
}

// Whether the record is usable.
#[tactic(auto, using(crate::proofs::Record::usable_laws))]
pub fn is_usable(entry: &[u8]) -> bool
    ensures { result ≡ usable entry.now }
{
    if entry.len() < 3 {
        return false;
    }
    if !is_usage(entry[0]) {
        return false;
    }
    is_selector(entry[1]) && data_fits(entry[2], entry.len() - 3)
}

// Whether some record has under 3 bytes.
fn has_short(mut set: Pieces<'_>) -> bool
    ensures { result ≡ any short (records_in set.entry) }
{
    set.any(|entry| entry.len() < 3)
}

// Whether some record is usable.
fn has_usable(mut set: Pieces<'_>) -> bool
    ensures { result ≡ any usable (records_in set.entry) }
{
    set.any(|entry| is_usable(entry))
}

// What the set needs.
#[tactic(auto, using(crate::proofs::Answer::needs_laws))]
pub fn needs_of(set: Pieces<'_>) -> Needs
    ensures { result ≡ needs_of (records_in set.entry) }
{
    if numbers::count(set.lengths) == 0 {
        return Needs::Nothing;
    }
    if !has_usable(set) {
        return Needs::Tls;
    }
    Needs::Authentication
}

// What reading a secure answer with these records comes to.
#[tactic(auto, using(crate::proofs::Answer::secure_laws))]
fn read_secure(set: Pieces<'_>) -> Read
    ensures { result ≡ taken_if_whole (records_in set.entry) }
{
    if has_short(set) {
        return Read::LookupFailed;
    }
    if numbers::count(set.lengths) == 0 {
        return Read::NextName;
    }
    Read::Taken(needs_of(set))
}

// Whether the records of a secure answer keep the limits.
#[tactic(auto, using(crate::proofs::Answer::fit_laws))]
fn set_fits(set: Pieces<'_>) -> bool
    ensures { result ≡ set_keeps set.entry }
{
    numbers::count(set.lengths) <= 32 && numbers::fits(set.lengths, set.bytes.len(), 4096)
}

impl TlsaAnswer<'_> {
    // What reading the answer comes to.
    #[tactic(auto, using(crate::proofs::Answer::answer_laws))]
    pub fn read(&self) -> Read
        ensures { (result ≡ read_of (answer_in self.now)) × (read_verdict result ≡ lookup_verdict (answer_in self.now)) }
    {
        match *self {
            TlsaAnswer::Secure(set) => read_secure(set),
            TlsaAnswer::Insecure | TlsaAnswer::Absent => Read::NextName,
            TlsaAnswer::Failed => Read::LookupFailed,
        }
    }

    // Whether the answer keeps the limits. Only a secure one has any.
    #[tactic(auto, using(crate::proofs::Answer::fits_laws))]
    pub fn fits(&self) -> bool
        ensures { result ≡ answer_keeps self.now }
    {
        match *self {
            TlsaAnswer::Secure(set) => set_fits(set),
            TlsaAnswer::Insecure | TlsaAnswer::Absent | TlsaAnswer::Failed => true,
        }
    }
}

// The TLSA names to try for an address result, or that it is verdict 20 or 21.
pub fn names_to_try(address: Address) -> Tries
    ensures { meaning_of result ≡ names_to_try address }
{
    match address {
        Address::NoAliasSecure => Tries::HostOnly,
        Address::NoAliasInsecure => Tries::NoName,
        Address::AliasSecure => Tries::ExpandedThenHost,
        Address::AliasFirstStepSecure => Tries::HostOnly,
        Address::AliasFirstStepInsecure => Tries::NoName,
        Address::Failed => Tries::AddressFailed,
        Address::NoAddress => Tries::AddressMissing,
    }
}
