// A certificate of the usual shape, seen field by field and without a walk over the table: one attribute in each set of the subject, no unique ids, and dNSNames alone in
// GeneralNames. Where a function here does not see its part of that shape it gives none, and the walk decides.
#![tactic(auto)]

ghost use Rattle.std.specs.Prelude.{◌≡◌, true, IfSome};
ghost use Rattle.x509.specs.Found.{fields_of};
ghost use Rattle.usual.specs.Shape.{tagged, alone, end_of, FreeSeen, ExtensionEnds, AttributeEnds, AttributeSeen, SetSeen, SubjectSeen, NamesEnd, AltNamesEnd, AltNameEnds, ExtensionSeen, ExtensionsSeen, ListSeen, TailSeen, VersionSeen, SerialSeen, MiddleSeen, SubjectOnSeen, TbsSeen, FieldsSeen, CertificateSeen};

use der::{Fault, Head};
use x509::{Found, Noted};

// How far a run has been seen, and the last offset that it notes, 0 where it has none so far.
// The offset is a plain number as in x509's `Noted`, for speed.
#[derive(Clone, Copy, Debug, PartialEq, Eq)]
pub struct Seen {
    pub at: usize,
    pub noted: usize,
}

// The element at `at`, if it has that tag.
#[inline(always)]
#[tactic(auto, using(crate::proofs::Shape::end_laws))]
fn tagged(s: &[u8], at: usize, tag: u8) -> Option<Head>
    ensures { result ≡ tagged s.now at tag }
{
    let head = der::header_at(s, at)?;
    if head.tag != tag {
        return None;
    }
    Some(head)
}

// The same, if it is all that stands from `at` to the end of s.
#[inline(always)]
#[tactic(auto, using(crate::proofs::Shape::end_laws))]
fn alone(s: &[u8], at: usize, tag: u8) -> Option<Head>
    ensures { result ≡ alone s.now at tag }
{
    let head = tagged(s, at, tag)?;
    if head.end != s.len() {
        return None;
    }
    Some(head)
}

// Where the element with that tag ends.
#[inline(always)]
#[tactic(auto, using(crate::proofs::Shape::end_laws))]
fn end_of(s: &[u8], at: usize, tag: u8) -> Option<usize>
    ensures { result ≡ end_of s.now at tag }
{
    let head = tagged(s, at, tag)?;
    Some(head.end)
}

// Where the element with that tag ends, in which anything may stand.
#[tactic(auto, using(crate::proofs::Shape::free_laws))]
fn free_end(s: &[u8], at: usize, tag: u8, levels: usize) -> Option<usize>
    ensures { FreeSeen levels s.now at tag result }
{
    let head = tagged(s, at, tag)?;
    der::walk_contents(s, head, levels).ok()
}

// Whether the fields of an extension are all that stands from `at` to the end of s.
#[tactic(auto, using(crate::proofs::Shape::sight_laws))]
fn is_extension(s: &[u8], at: usize) -> bool
    ensures { result ≡ true → ExtensionEnds s.now at }
{
    let Some(i) = end_of(s, at, x509::OBJECT_IDENTIFIER) else {
        return false;
    };
    if alone(s, i, x509::OCTET_STRING).is_some() {
        return true;
    }
    let Some(j) = end_of(s, i, x509::BOOLEAN) else {
        return false;
    };
    alone(s, j, x509::OCTET_STRING).is_some()
}

// Where an attribute's value begins, if its type and a primitive value are all that stands from `at` to the end of s.
#[tactic(auto, using(crate::proofs::Shape::sight_laws))]
fn attribute_value(s: &[u8], at: usize) -> Option<usize>
    ensures { IfSome result (AttributeEnds s.now at) }
{
    let i = end_of(s, at, x509::OBJECT_IDENTIFIER)?;
    let head = der::header_at(s, i)?;
    if der::is_constructed(head.tag) || head.end != s.len() {
        return None;
    }
    Some(i)
}

// The common name so far, if one attribute is all that stands from `at` to the end of s.
#[tactic(auto, using(crate::proofs::Shape::attribute_laws))]
fn attribute_at(s: &[u8], at: usize, name: usize) -> Option<usize>
    ensures { AttributeSeen s.now at name result }
{
    let head = alone(s, at, x509::SEQUENCE)?;
    let value = attribute_value(s, head.start)?;
    if x509::is_common_name(&s[head.start..head.end]) {
        return Some(value);
    }
    Some(name)
}

// Past a set of one attribute, with the common name so far.
#[tactic(auto, using(crate::proofs::Shape::set_laws))]
fn set_at(s: &[u8], from: Seen) -> Option<Seen>
    ensures { SetSeen s.now from result }
{
    let head = tagged(s, from.at, x509::SET)?;
    let noted = attribute_at(&s[..head.end], head.start, from.noted)?;
    Some(Seen {
        at: head.end,
        noted,
    })
}

// The last common name of a subject whose sets stand from `at` to the end of s.
#[tactic(auto, using(crate::proofs::Shape::subject_laws))]
fn subject(s: &[u8], at: usize) -> Option<usize>
    ensures { SubjectSeen s.now at result }
{
    // No iterator: each turn goes on from what the last one has seen, and an element of another shape ends all. The loop of `extensions` is
    // its twin, over another promise: one for both would take the relation of two states as a parameter, and be no shorter.
    let mut seen = Seen { at, noted: 0 };
    while seen.at < s.len() {
        seen = set_at(s, seen)?;
    }
    Some(seen.noted)
}

// Whether dNSNames are all that stands from `at` to the end of s.
#[tactic(auto, using(crate::proofs::Shape::names_laws))]
fn are_dns_names(s: &[u8], at: usize) -> bool
    ensures { result ≡ true → NamesEnd s.now at }
{
    // No iterator: whether the elements reach to the end of s is asked, which a reader's items do not say.
    let mut i = at;
    while i < s.len() {
        let Some(end) = end_of(s, i, x509::DNS_NAME) else {
            return false;
        };
        i = end;
    }
    true
}

// Whether GeneralNames of dNSNames are all that stands from `at` to the end of s.
#[tactic(auto, using(crate::proofs::Shape::alt_name_laws))]
fn are_alt_names(s: &[u8], at: usize) -> bool
    ensures { result ≡ true → AltNamesEnd s.now at }
{
    match alone(s, at, x509::SEQUENCE) {
        Some(head) => are_dns_names(s, head.start),
        None => false,
    }
}

// Where GeneralNames begin in the extension subjectAltName whose fields are all that stands from `at` to the end of s.
#[tactic(auto, using(crate::proofs::Shape::alt_name_laws))]
fn alt_name(s: &[u8], at: usize) -> Option<usize>
    ensures { IfSome result (AltNameEnds s.now at) }
{
    let i = end_of(s, at, x509::OBJECT_IDENTIFIER)?;
    let head = alone(s, i, x509::OCTET_STRING)?;
    if !are_alt_names(s, head.start) {
        return None;
    }
    Some(head.start)
}

// Past an extension, with where GeneralNames begin so far.
#[tactic(auto, using(crate::proofs::Shape::extension_laws))]
fn extension_at(s: &[u8], from: Seen) -> Option<Seen>
    ensures { ExtensionSeen s.now from result }
{
    let head = tagged(s, from.at, x509::SEQUENCE)?;
    if !x509::is_alt_name(&s[head.start..head.end]) {
        if !is_extension(&s[..head.end], head.start) {
            return None;
        }
        return Some(Seen {
            at: head.end,
            noted: from.noted,
        });
    }
    if from.noted != 0 {
        return None;
    }
    let noted = alt_name(&s[..head.end], head.start)?;
    Some(Seen {
        at: head.end,
        noted,
    })
}

// Where GeneralNames begin, 0 where there are none, if extensions stand from `at` to the end of s. The loop is that of `subject` with another step: a loop that takes the step as a
// closure would need what a step promises in its contract, and be no plainer.
#[tactic(auto, using(crate::proofs::Shape::extensions_laws))]
fn extensions(s: &[u8], at: usize) -> Option<usize>
    ensures { ExtensionsSeen s.now at result }
{
    // No iterator, as in `subject`.
    let mut seen = Seen { at, noted: 0 };
    while seen.at < s.len() {
        seen = extension_at(s, seen)?;
    }
    Some(seen.noted)
}

// The same, if a list of extensions is all that stands from `at` to the end of s.
#[tactic(auto, using(crate::proofs::Shape::tail_laws))]
fn extension_list(s: &[u8], at: usize) -> Option<usize>
    ensures { ListSeen s.now at result }
{
    let head = alone(s, at, x509::SEQUENCE)?;
    extensions(s, head.start)
}

// The same, if the field extensions, or nothing, is all that stands from `at` to the end of s.
#[tactic(auto, using(crate::proofs::Shape::tail_laws))]
fn tail(s: &[u8], at: usize) -> Option<usize>
    ensures { TailSeen s.now at result }
{
    if at == s.len() {
        return Some(0);
    }
    let head = alone(s, at, x509::EXTENSIONS)?;
    extension_list(s, head.start)
}

// Where the version ends, in which an integer alone stands.
#[tactic(auto, using(crate::proofs::Shape::serial_laws))]
fn version_end(s: &[u8], at: usize) -> Option<usize>
    ensures { VersionSeen s.now at result }
{
    let head = tagged(s, at, x509::VERSION)?;
    alone(&s[..head.end], head.start, x509::INTEGER)?;
    Some(head.end)
}

// Where the serial number ends, after a version or none.
#[tactic(auto, using(crate::proofs::Shape::serial_laws))]
fn serial_end(s: &[u8], at: usize) -> Option<usize>
    ensures { SerialSeen s.now at result }
{
    match version_end(s, at) {
        Some(i) => end_of(s, i, x509::INTEGER),
        None => end_of(s, at, x509::INTEGER),
    }
}

// Where the signature's algorithm, the issuer and the validity end.
#[tactic(auto, using(crate::proofs::Shape::middle_laws))]
fn middle_end(s: &[u8], at: usize) -> Option<usize>
    ensures { MiddleSeen s.now at result }
{
    let i = free_end(s, at, x509::SEQUENCE, 13)?;
    let j = free_end(s, i, x509::SEQUENCE, 13)?;
    free_end(s, j, x509::SEQUENCE, 13)
}

// What is noted in the subject and what follows it, from `at` to the end of s.
#[tactic(auto, using(crate::proofs::Shape::on_laws))]
fn subject_on(s: &[u8], at: usize) -> Option<Noted>
    ensures { SubjectOnSeen s.now at result }
{
    let head = tagged(s, at, x509::SEQUENCE)?;
    let name = subject(&s[..head.end], head.start)?;
    let i = free_end(s, head.end, x509::SEQUENCE, 13)?;
    let alternatives = tail(s, i)?;
    Some(Noted {
        key: head.end,
        name,
        alternatives,
    })
}

// What is noted in the fields of TBSCertificate, from `at` to the end of s.
#[tactic(auto, using(crate::proofs::Shape::shape_laws))]
fn tbs_certificate(s: &[u8], at: usize) -> Option<Noted>
    ensures { TbsSeen s.now at result }
{
    let i = serial_end(s, at)?;
    let j = middle_end(s, i)?;
    subject_on(s, j)
}

// What is noted in the fields of Certificate, from `at` to the end of s.
#[tactic(auto, using(crate::proofs::Shape::shape_laws))]
fn certificate_fields(s: &[u8], at: usize) -> Option<Noted>
    ensures { FieldsSeen s.now at result }
{
    let head = tagged(s, at, x509::SEQUENCE)?;
    let i = free_end(s, head.end, x509::SEQUENCE, 14)?;
    alone(s, i, x509::BIT_STRING)?;
    tbs_certificate(&s[..head.end], head.start)
}

// What is noted in the certificate that the whole of s is, if it has the usual shape.
#[tactic(auto, using(crate::proofs::Shape::shape_laws))]
fn certificate(s: &[u8]) -> Option<Noted>
    ensures { CertificateSeen s.now result }
{
    let head = alone(s, 0, x509::SEQUENCE)?;
    certificate_fields(s, head.start)
}

// The fields of the certificate that the whole of s is to be: at sight where it has the usual shape, else by the walk.
#[inline(always)]
#[tactic(auto, using(crate::proofs::Shape::at_sight_laws))]
pub fn fields_of(s: &[u8]) -> Result<Found, Fault>
    ensures { result ≡ fields_of s.now }
{
    match certificate(s) {
        Some(noted) => Ok(x509::found_at(s, noted)),
        None => x509::fields_of(s),
    }
}
