// The facts of a host, which a line gives by name, as `origin=no_mx host="mx.example.com"`: the arguments of tweedstork_judge_host,
// and without the leaf's names those of tweedstork_judge_host_certificate. A new one is a line of `FACTS`, and an argument in
// `calls::judge_host` and `calls::judge_host_certificate`.
//
// A default is a line as `default judge_host clock=1000 ..`. It states the facts that the cases of both calls after it don't give, up
// to the file's end or the next default. What neither gives is 0 or no bytes.
use crate::failure::Failure;
use crate::failure::Failure::Unreadable;
use crate::line::{Field, Kind, Line};
use std::alloc::Global;
use std::collections::HashMap;

// What a line may give for a fact: bytes, a number, or a number by the word for it, whose place in the list it is.
#[derive(Clone, Copy)]
enum Takes {
    Bytes,
    Number,
    Code(&'static [&'static [u8]]),
}

// The facts, in the order of the arguments. `-`, which is no word, stands for a number without one.
const FACTS: [(&[u8], Takes); 32] = [
    (b"clock", Takes::Number),
    (b"next_hop", Takes::Bytes),
    (
        b"expanded_next_hop_given",
        Takes::Code(&[b"-", b"yes", b"no"]),
    ),
    (b"expanded_next_hop", Takes::Bytes),
    (
        b"origin",
        Takes::Code(&[b"-", b"secure_mx", b"insecure_mx", b"no_mx"]),
    ),
    (b"host", Takes::Bytes),
    (
        b"address",
        Takes::Code(&[
            b"-",
            b"no_alias_secure",
            b"no_alias_insecure",
            b"alias_secure",
            b"alias_first_step_secure",
            b"alias_first_step_insecure",
            b"failed",
            b"absent",
        ]),
    ),
    (b"expanded", Takes::Bytes),
    (b"policy_given", Takes::Code(&[b"-", b"yes", b"no"])),
    (b"policy", Takes::Bytes),
    (b"fetched", Takes::Number),
    (b"tlsa_answers", Takes::Number),
    (
        b"tlsa1_result",
        Takes::Code(&[b"-", b"secure", b"insecure", b"absent", b"failed"]),
    ),
    (b"tlsa1_lengths", Takes::Bytes),
    (b"tlsa1_records", Takes::Bytes),
    (
        b"tlsa2_result",
        Takes::Code(&[b"-", b"secure", b"insecure", b"absent", b"failed"]),
    ),
    (b"tlsa2_lengths", Takes::Bytes),
    (b"tlsa2_records", Takes::Bytes),
    (
        b"starttls",
        Takes::Code(&[b"not_given", b"offered", b"not_offered"]),
    ),
    (
        b"handshake",
        Takes::Code(&[b"not_given", b"established", b"failed"]),
    ),
    (b"tls_version", Takes::Number),
    (b"certificates_given", Takes::Code(&[b"no", b"yes"])),
    (b"certificates", Takes::Bytes),
    (b"certificate_lengths", Takes::Bytes),
    (b"key_places", Takes::Bytes),
    (b"digests", Takes::Bytes),
    (b"paths", Takes::Bytes),
    (b"trusted_root", Takes::Code(&[b"-", b"yes", b"no"])),
    (b"dns_ids", Takes::Bytes),
    (b"dns_id_lengths", Takes::Bytes),
    (b"common_name_given", Takes::Code(&[b"-", b"yes", b"no"])),
    (b"common_name", Takes::Bytes),
];

// The facts that are names of the leaf.
const LEAF_NAMES: [&[u8]; 4] = [
    b"dns_ids",
    b"dns_id_lengths",
    b"common_name_given",
    b"common_name",
];

#[derive(Clone, Copy)]
pub enum Value<'a> {
    Number(u64),
    Bytes(&'a [u8]),
}

// The values that a line gives, by the names of their facts.
type Given<'a> = HashMap<&'a [u8], Value<'a>>;

// The values of a case, and those of the default that holds for it.
#[derive(Drop)]
pub struct Facts<'a> {
    of_case: Given<'a>,
    of_default: Given<'a>,
}

impl<'a> Facts<'a> {
    // The facts of a case, and the numbers of its answer. Those of a case whose default can't be read can't be read either.
    pub(crate) fn of_case(
        alloc: Global,
        case: &'a Line,
        default: Option<&'a Line>,
    ) -> Result<(Facts<'a>, [u64; 2]), Failure> {
        let [facts @ .., arrow, number, tlsa_questions] = case.fields.as_slice() else {
            return Err(Unreadable);
        };
        let (Kind::Arrow, Kind::Number(a), Kind::Number(b)) = (
            arrow.kind,
            number.kind,
            tlsa_questions.kind,
        ) else {
            return Err(Unreadable);
        };
        let facts = Facts {
            of_case: given(alloc, case, facts)?,
            of_default: of_default(alloc, default)?,
        };
        Ok((facts, [a, b]))
    }

    fn get(&self, name: &'a [u8]) -> Option<Value<'a>> {
        match self.of_case.get(name) {
            Some(value) => Some(*value),
            None => self.of_default.get(name).copied(),
        }
    }

    // The number of a fact.
    pub(crate) fn number(&self, name: &'a [u8]) -> u64 {
        match self.get(name) {
            Some(Value::Number(n)) => n,
            _ => 0,
        }
    }

    // The bytes of a fact.
    pub(crate) fn bytes(&self, name: &'a [u8]) -> &'a [u8] {
        match self.get(name) {
            Some(Value::Bytes(s)) => s,
            _ => &[],
        }
    }

    // Whether the case or its default gives a name of the leaf.
    pub(crate) fn has_leaf_names(&self) -> bool {
        LEAF_NAMES.iter().any(|name| self.get(name).is_some())
    }
}

// The values that a default states: before the first default of a file none.
pub(crate) fn of_default<'a>(
    alloc: Global,
    default: Option<&'a Line>,
) -> Result<Given<'a>, Failure> {
    match default {
        None => Ok(HashMap::new(alloc)),
        Some(line) if line.bytes_at(1) == b"judge_host".as_slice() => given(
            alloc,
            line,
            &line.fields,
        ),
        Some(_) => Err(Unreadable),
    }
}

// The values that fields of a line give: after two words a name and a value in turn. No name stands there twice.
fn given<'a>(alloc: Global, line: &'a Line, fields: &'a [Field]) -> Result<Given<'a>, Failure> {
    let [call, case, facts @ ..] = fields else {
        return Err(Unreadable);
    };
    if !line.is_whole || call.kind != Kind::Word || case.kind != Kind::Word {
        return Err(Unreadable);
    }
    let mut given = HashMap::new(alloc);
    for pair in facts.chunks(2) {
        let [name, value] = pair else {
            return Err(Unreadable);
        };
        if name.kind != Kind::Name
            || given
                .insert(name.bytes.as_slice(), value_of(&name.bytes, value)?)?
                .is_some()
        {
            return Err(Unreadable);
        }
    }
    Ok(given)
}

// The value that a field gives for a fact.
fn value_of<'a>(name: &[u8], field: &'a Field) -> Result<Value<'a>, Failure> {
    let fact = FACTS.iter().find(|fact| fact.0 == name);
    match (fact.ok_or(Unreadable)?.1, field.kind) {
        (Takes::Bytes, Kind::Bytes) => Ok(Value::Bytes(&field.bytes)),
        (Takes::Number, Kind::Number(n)) => Ok(Value::Number(n)),
        (Takes::Code(_), Kind::Number(n)) => Ok(Value::Number(n)),
        (Takes::Code(words), Kind::Word) => {
            let code = words
                .iter()
                .position(|word| *word == field.bytes.as_slice());
            Ok(Value::Number(code.ok_or(Unreadable)? as u64))
        }
        _ => Err(Unreadable),
    }
}
