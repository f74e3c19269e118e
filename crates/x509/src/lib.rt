// RFC 5280's fields of a certificate, and the walk over them.
#![tactic(auto)]

ghost use Rattle.std.specs.Prelude.{◌≡◌, drop};
ghost use Rattle.der.specs.Header.{header};
ghost use Rattle.x509.specs.Fields.{anything, tagged, holds, noting, string_name, built_name, expects, may_end, is_of, subject_alt_name, common_name};
ghost use Rattle.x509.specs.Walk.{noted, walk_run, walk_element};
ghost use Rattle.x509.specs.Found.{whole_at, contents_at, name_at, alternatives_at, found_at, fields_of};

use der::{Fault, Head};
use reader::{Reader, Step};

// X.690's universal tags, with the constructed bit.
pub const BOOLEAN: u8 = 1;

pub const INTEGER: u8 = 2;

pub const BIT_STRING: u8 = 3;

pub const OCTET_STRING: u8 = 4;

pub const OBJECT_IDENTIFIER: u8 = 6;

pub const SEQUENCE: u8 = 48;

pub const SET: u8 = 49;

// The tags of TBSCertificate's optional fields.
pub const VERSION: u8 = 160;

const ISSUER_UNIQUE_ID: u8 = 129;

const SUBJECT_UNIQUE_ID: u8 = 130;

pub const EXTENSIONS: u8 = 163;

// The tags of a GeneralName.
const OTHER_NAME: u8 = 160;

const RFC822_NAME: u8 = 129;

pub const DNS_NAME: u8 = 130;

const X400_ADDRESS: u8 = 163;

const DIRECTORY_NAME: u8 = 164;

const EDI_PARTY_NAME: u8 = 165;

const UNIFORM_RESOURCE_IDENTIFIER: u8 = 134;

const IP_ADDRESS: u8 = 135;

const REGISTERED_ID: u8 = 136;

// How deep elements nest at most, the certificate being 1.
const LEVELS: usize = 16;

// A place in RFC 5280's fields: the field that comes next.
#[derive(Clone, Copy)]
pub enum Place {
    Certificate,
    TbsCertificate,
    SignatureAlgorithm,
    SignatureValue,
    Version,
    VersionNumber,
    SerialNumber,
    Signature,
    Issuer,
    Validity,
    Subject,
    RelativeDistinguishedName,
    AttributeTypeAndValue,
    AttributeType,
    AttributeValue,
    CommonNameType,
    CommonName,
    SubjectPublicKeyInfo,
    IssuerUniqueId,
    SubjectUniqueId,
    Extensions,
    ExtensionList,
    Extension,
    OtherExtension,
    ExtnId,
    Critical,
    ExtnValue,
    AltNameId,
    AltNameCritical,
    AltNameValue,
    AltNames,
    GeneralName,
    DirectoryName,
    End,
}

// What the reader takes note of.
#[derive(Clone, Copy, Debug, PartialEq, Eq)]
pub enum Note {
    Nothing,
    KeyInfo,
    NameValue,
    Alternatives,
}

// An element that may stand at a place: in it stands anything, or fields from a place on.
#[derive(Clone, Copy)]
pub struct Field {
    pub note: Note,
    pub inside: Option<Place>,
    pub after: Place,
}

// The offsets of the elements that are noted, 0 where there is none.
// Plain numbers for speed: with an Option in each, a leaf that is refused at its last element takes 2.58 times plain C's instructions, promised at most 2.5, and 2.19 so.
#[derive(Clone, Copy)]
pub struct Noted {
    pub key: usize,
    pub name: usize,
    pub alternatives: usize,
}

// How far a walk has come: the offset, the place, and what is noted.
#[derive(Clone, Copy)]
pub struct Progress {
    pub at: usize,
    pub place: Place,
    pub noted: Noted,
}

// A part of the certificate.
#[derive(Clone, Copy, Debug, PartialEq, Eq)]
pub struct Part {
    pub start: usize,
    pub end: usize,
}

// What is found in a certificate.
#[derive(Clone, Copy)]
pub struct Found {
    pub key: Part,
    pub name: Option<Part>,
    pub alternatives: Part,
}

// An element of any tag, in which anything may stand.
fn anything(after: Place) -> Option<Field>
    ensures { result ≡ anything after }
{
    Some(Field {
        note: Note::Nothing,
        inside: None,
        after,
    })
}

// An element with the tag that is wanted, in which anything may stand.
#[tactic(auto, using(crate::proofs::Table::table_laws))]
fn tagged(tag: u8, wanted: u8, after: Place) -> Option<Field>
    ensures { result ≡ tagged wanted after tag }
{
    if tag != wanted {
        return None;
    }
    anything(after)
}

// An element with the tag that is wanted, in which fields stand.
#[tactic(auto, using(crate::proofs::Table::table_laws))]
fn holds(tag: u8, wanted: u8, inside: Place, after: Place) -> Option<Field>
    ensures { result ≡ holds wanted inside after tag }
{
    if tag != wanted {
        return None;
    }
    Some(Field {
        note: Note::Nothing,
        inside: Some(inside),
        after,
    })
}

// The same, and the reader takes note of the element.
#[tactic(auto, unfolding(crate::specs::Fields::noting))]
fn noting(note: Note, expected: Option<Field>) -> Option<Field>
    ensures { result ≡ noting note expected }
{
    let field = expected?;
    Some(Field { note, ..field })
}

// Whether the contents begin with the object identifier.
#[tactic(auto, using(crate::proofs::Table::table_laws))]
fn is_of(identifier: &[u8], contents: &[u8]) -> bool
    ensures { result ≡ is_of identifier.now contents.now }
{
    // `==` goes byte by byte: a leaf with 100 further extensions takes 1.05 times plain C's instructions by it, and 0.95 so.
    if contents.len() < 5 {
        return lists::equal(contents, identifier);
    }
    lists::equal(&contents[0..5], identifier)
}

// Whether the contents begin with the object identifier of subjectAltName.
pub fn is_alt_name(contents: &[u8]) -> bool
    ensures { result ≡ is_of subject_alt_name contents.now }
{
    is_of(b"\x06\x03\x55\x1d\x11", contents)
}

// Whether the contents begin with the object identifier of commonName.
pub fn is_common_name(contents: &[u8]) -> bool
    ensures { result ≡ is_of common_name contents.now }
{
    is_of(b"\x06\x03\x55\x04\x03", contents)
}

// A GeneralName that is a string.
#[tactic(auto, using(crate::proofs::Table::else_laws), unfolding(crate::specs::Fields::string_name))]
fn string_name(tag: u8) -> Option<Field>
    ensures { result ≡ string_name tag }
{
    tagged(tag, DNS_NAME, Place::GeneralName)
        .or(tagged(tag, RFC822_NAME, Place::GeneralName))
        .or(tagged(tag, UNIFORM_RESOURCE_IDENTIFIER, Place::GeneralName))
        .or(tagged(tag, IP_ADDRESS, Place::GeneralName))
        .or(tagged(tag, REGISTERED_ID, Place::GeneralName))
}

// A GeneralName that is made of elements.
#[tactic(auto, using(crate::proofs::Table::else_laws), unfolding(crate::specs::Fields::built_name))]
fn built_name(tag: u8) -> Option<Field>
    ensures { result ≡ built_name tag }
{
    tagged(tag, OTHER_NAME, Place::GeneralName)
        .or(tagged(tag, X400_ADDRESS, Place::GeneralName))
        .or(holds(
            tag,
            DIRECTORY_NAME,
            Place::DirectoryName,
            Place::GeneralName,
        ))
        .or(tagged(tag, EDI_PARTY_NAME, Place::GeneralName))
}

// The element that may stand at a place, by its tag and its contents.
#[tactic(auto, unfolding(crate::specs::Fields::expects, crate::specs::Fields::or_else))]
fn expects(place: Place, tag: u8, contents: &[u8]) -> Option<Field>
    ensures { result ≡ expects place tag contents.now }
{
    match place {
        Place::Certificate => holds(tag, SEQUENCE, Place::TbsCertificate, Place::End),
        Place::TbsCertificate => holds(tag, SEQUENCE, Place::Version, Place::SignatureAlgorithm),
        Place::SignatureAlgorithm => tagged(tag, SEQUENCE, Place::SignatureValue),
        Place::SignatureValue => tagged(tag, BIT_STRING, Place::End),
        Place::Version => holds(tag, VERSION, Place::VersionNumber, Place::SerialNumber).or(tagged(
            tag,
            INTEGER,
            Place::Signature,
        )),
        Place::VersionNumber => tagged(tag, INTEGER, Place::End),
        Place::SerialNumber => tagged(tag, INTEGER, Place::Signature),
        Place::Signature => tagged(tag, SEQUENCE, Place::Issuer),
        Place::Issuer => tagged(tag, SEQUENCE, Place::Validity),
        Place::Validity => tagged(tag, SEQUENCE, Place::Subject),
        Place::Subject => holds(
            tag,
            SEQUENCE,
            Place::RelativeDistinguishedName,
            Place::SubjectPublicKeyInfo,
        ),
        Place::SubjectPublicKeyInfo => noting(
            Note::KeyInfo,
            tagged(tag, SEQUENCE, Place::IssuerUniqueId),
        ),
        Place::IssuerUniqueId => tagged(tag, ISSUER_UNIQUE_ID, Place::SubjectUniqueId)
            .or(tagged(tag, SUBJECT_UNIQUE_ID, Place::Extensions))
            .or(holds(tag, EXTENSIONS, Place::ExtensionList, Place::End)),
        Place::SubjectUniqueId => tagged(tag, SUBJECT_UNIQUE_ID, Place::Extensions).or(holds(
            tag,
            EXTENSIONS,
            Place::ExtensionList,
            Place::End,
        )),
        Place::Extensions => holds(tag, EXTENSIONS, Place::ExtensionList, Place::End),
        Place::RelativeDistinguishedName => holds(
            tag,
            SET,
            Place::AttributeTypeAndValue,
            Place::RelativeDistinguishedName,
        ),
        Place::AttributeTypeAndValue => {
            let inside = if is_common_name(contents) {
                Place::CommonNameType
            } else {
                Place::AttributeType
            };
            holds(tag, SEQUENCE, inside, Place::AttributeTypeAndValue)
        }
        Place::AttributeType => tagged(tag, OBJECT_IDENTIFIER, Place::AttributeValue),
        Place::AttributeValue => anything(Place::End),
        Place::CommonNameType => tagged(tag, OBJECT_IDENTIFIER, Place::CommonName),
        Place::CommonName => noting(Note::NameValue, anything(Place::End)),
        Place::ExtensionList => holds(tag, SEQUENCE, Place::Extension, Place::End),
        Place::Extension => {
            if is_alt_name(contents) {
                holds(tag, SEQUENCE, Place::AltNameId, Place::OtherExtension)
            } else {
                holds(tag, SEQUENCE, Place::ExtnId, Place::Extension)
            }
        }
        Place::OtherExtension => {
            if is_alt_name(contents) {
                None
            } else {
                holds(tag, SEQUENCE, Place::ExtnId, Place::OtherExtension)
            }
        }
        Place::ExtnId => tagged(tag, OBJECT_IDENTIFIER, Place::Critical),
        Place::Critical => tagged(tag, BOOLEAN, Place::ExtnValue).or(tagged(
            tag,
            OCTET_STRING,
            Place::End,
        )),
        Place::ExtnValue => tagged(tag, OCTET_STRING, Place::End),
        Place::AltNameId => tagged(tag, OBJECT_IDENTIFIER, Place::AltNameCritical),
        Place::AltNameCritical => tagged(tag, BOOLEAN, Place::AltNameValue).or(holds(
            tag,
            OCTET_STRING,
            Place::AltNames,
            Place::End,
        )),
        Place::AltNameValue => holds(tag, OCTET_STRING, Place::AltNames, Place::End),
        Place::AltNames => noting(
            Note::Alternatives,
            holds(tag, SEQUENCE, Place::GeneralName, Place::End),
        ),
        Place::GeneralName => string_name(tag).or(built_name(tag)),
        Place::DirectoryName => tagged(tag, SEQUENCE, Place::End),
        Place::End => None,
    }
}

// Whether what holds the fields may end at a place.
#[tactic(auto, unfolding(crate::specs::Fields::may_end))]
fn may_end(place: Place) -> bool
    ensures { result ≡ may_end place }
{
    matches!(
        place,
        Place::RelativeDistinguishedName
            | Place::AttributeTypeAndValue
            | Place::IssuerUniqueId
            | Place::SubjectUniqueId
            | Place::Extensions
            | Place::Extension
            | Place::OtherExtension
            | Place::GeneralName
            | Place::End
    )
}

// What is noted, with the element at `at`.
#[tactic(auto, unfolding(crate::specs::Walk::noted))]
fn note_at(note: Note, at: usize, before: Noted) -> Noted
    ensures { result ≡ noted note at before }
{
    match note {
        Note::Nothing => before,
        Note::KeyInfo => Noted { key: at, ..before },
        Note::NameValue => Noted { name: at, ..before },
        Note::Alternatives => Noted {
            alternatives: at,
            ..before
        },
    }
}

// The header of the element at an offset, which a reader there meets.
#[inline(always)]
#[tactic(auto, using(reader::proofs::Moves::header_laws))]
fn head_at(s: &[u8], at: usize) -> Option<Head>
    ensures { result ≡ header at (drop at s.now) }
{
    match Reader::new(s, at).step() {
        Step::Element(head) => Some(head),
        Step::End | Step::Broken => None,
    }
}

// Walks the element where `from` is, and what stands in it; `levels` levels are left.
#[cycle(element_run)]
#[tactic(auto, using(crate::proofs::Walks::element_laws))]
fn element(s: &[u8], levels: usize, from: Progress) -> Result<Progress, Fault>
    ensures { result ≡ walk_element levels from.place from.noted s.now from.at }
{
    let fault = Fault { at: from.at };
    if levels == 0 {
        return Err(fault);
    }
    let head = head_at(s, from.at).ok_or(fault)?;
    let contents = &s[head.start..head.end];
    let field = expects(from.place, head.tag, contents).ok_or(fault)?;
    let before = note_at(field.note, from.at, from.noted);
    let noted = match field.inside {
        None => {
            der::walk_contents(s, head, levels - 1)?;
            before
        }
        Some(first) => {
            let inside = Progress {
                at: head.start,
                place: first,
                noted: before,
            };
            run(&s[..head.end], levels - 1, inside)?
        }
    };
    Ok(Progress {
        at: head.end,
        place: field.after,
        noted,
    })
}

// Walks the elements from there to the end of s.
#[cycle(element_run)]
#[tactic(auto, using(crate::proofs::Walks::run_laws))]
fn run(s: &[u8], levels: usize, from: Progress) -> Result<Noted, Fault>
    ensures { result ≡ walk_run (walk_element levels) from.place from.noted s.now from.at }
{
    // No iterator: each turn goes on from where the last walk ended, at the place after it, and that end, or its fault, decides.
    let mut p = from;
    while p.at < s.len() {
        p = element(s, levels, p)?;
    }
    if !may_end(p.place) {
        return Err(Fault { at: p.at });
    }
    Ok(p.noted)
}

// No bytes.
const NOTHING: Part = Part { start: 0, end: 0 };

// The element at an offset, with its header.
#[tactic(auto, using(crate::proofs::Parts::part_laws))]
fn whole_at(s: &[u8], at: usize) -> Part
    ensures { result ≡ whole_at s.now at }
{
    match der::header_at(s, at) {
        Some(head) => Part {
            start: at,
            end: head.end,
        },
        None => NOTHING,
    }
}

// What stands in the element at an offset.
#[tactic(auto, using(crate::proofs::Parts::part_laws))]
fn contents_at(s: &[u8], at: usize) -> Part
    ensures { result ≡ contents_at s.now at }
{
    match der::header_at(s, at) {
        Some(head) => Part {
            start: head.start,
            end: head.end,
        },
        None => NOTHING,
    }
}

// The name whose value was noted at an offset, or none.
#[tactic(auto, using(crate::proofs::Parts::part_laws))]
fn name_at(s: &[u8], at: usize) -> Option<Part>
    ensures { result ≡ name_at s.now at }
{
    if at == 0 {
        return None;
    }
    Some(contents_at(s, at))
}

// What stands in the GeneralNames that were noted at an offset.
#[tactic(auto, using(crate::proofs::Parts::part_laws))]
fn alternatives_at(s: &[u8], at: usize) -> Part
    ensures { result ≡ alternatives_at s.now at }
{
    if at == 0 {
        return NOTHING;
    }
    contents_at(s, at)
}

// What is found, by what was noted.
#[tactic(auto, using(crate::proofs::Parts::part_laws))]
pub fn found_at(s: &[u8], n: Noted) -> Found
    ensures { result ≡ found_at s.now n }
{
    Found {
        key: whole_at(s, n.key),
        name: name_at(s, n.name),
        alternatives: alternatives_at(s, n.alternatives),
    }
}

// The fields of the certificate that the whole of s is to be.
#[tactic(auto, using(crate::proofs::Parts::fields_laws))]
pub fn fields_of(s: &[u8]) -> Result<Found, Fault>
    ensures { result ≡ fields_of s.now }
{
    let start = Progress {
        at: 0,
        place: Place::Certificate,
        noted: Noted {
            key: 0,
            name: 0,
            alternatives: 0,
        },
    };
    let noted = run(s, LEVELS, start)?;
    Ok(found_at(s, noted))
}
