// The calls of the library that a case can make. A new call is a function here, named in `run`: it reads the line's fields in turn,
// makes the call and compares the answers. Those that write to an output have `Output` in common.
// The facts of a host are given by name: facts.rt. The calls on a cache go on from what the lines before them left: history.rt.
use crate::facts::Facts;
use crate::failure::Failure::{Answers, Differs, Unreadable};
use crate::failure::{Failure, Outcome};
use crate::line::{Fields, Line};
use hosts::HostAnswer;
use std::alloc::Global;
use std::fmt;
use writing::WriteAnswer;

// The most bytes that a case lends as output: more than the largest policy has that is written, 4,207.
const OUTPUT_ROOM: usize = 4352;

// The numbers of an answer, in the order of its struct.
#[derive(Clone, Copy)]
struct Numbers<'a>(&'a [u64]);

impl fmt::Display for Numbers<'_> {
    fn fmt<W: fmt::Write>(&self, f: &mut fmt::Formatter<W>) -> fmt::Result {
        for (k, n) in self.0.iter().enumerate() {
            if k > 0 {
                write!(f, " ")?;
            }
            write!(f, "{n}")?;
        }
        Ok(())
    }
}

// Runs the case of a line: field 0 names the call, field 1 the case, then come the call's arguments, `=>` and its answer.
pub(crate) fn run(alloc: Global, line: &Line, default: Option<&Line>) -> Result<Outcome, Failure> {
    match line.bytes_at(0) {
        b"read_txt" => read_txt(alloc, line.case()?),
        b"read_policy" => read_policy(alloc, line.case()?),
        b"judge_host" => judge_host(alloc, line, default),
        b"judge_host_certificate" => judge_host_certificate(alloc, line, default),
        b"next_host" => next_host(alloc, line.case()?),
        b"write_txt" => written(alloc, line.case()?, tweedstork::tweedstork_write_txt),
        b"write_policy" => write_policy(alloc, line.case()?),
        b"rewrite_policy" => written(alloc, line.case()?, tweedstork::tweedstork_rewrite_policy),
        b"read_certificate" => read_certificate(alloc, line.case()?),
        _ => Err(Unreadable),
    }
}

// The output that a call writes to, as it is before the call, and the answer's numbers and the output after it that the case asks for.
#[derive(Drop)]
struct Output<'a, const N: usize> {
    bytes: Vec<u8>,
    expected: [u64; N],
    after: &'a [u8],
}

impl<'a, const N: usize> Output<'a, N> {
    // The last fields of a case: the whole output before the call, `=>`, the answer's numbers and the whole output after the call.
    fn read(alloc: Global, mut fields: Fields<'a>) -> Result<Output<'a, N>, Failure> {
        let before = fields.bytes()?;
        let expected = fields.answer()?;
        let after = fields.bytes()?;
        fields.end()?;
        if before.len() > OUTPUT_ROOM {
            return Err(Unreadable);
        }
        Ok(Output {
            bytes: before.to_vec(alloc)?,
            expected,
            after,
        })
    }

    // Compares the output after the call, then the answer.
    fn compared(self, alloc: Global, got: [u64; N]) -> Result<Outcome, Failure> {
        if self.bytes.as_slice() != self.after {
            return Err(Differs("output differs"));
        }
        compared(alloc, self.expected, got)
    }
}

fn read_txt(alloc: Global, mut fields: Fields) -> Result<Outcome, Failure> {
    let rdatas = fields.bytes()?;
    let lengths = fields.bytes()?;
    let mut output = Output::read(alloc, fields)?;
    let r = tweedstork::tweedstork_read_txt(rdatas, lengths, &mut output.bytes);
    output.compared(alloc, [r.number, r.id_start, r.id_length])
}

// A call that takes bytes and writes a text.
fn written<F: Fn(&[u8], &mut [u8]) -> WriteAnswer>(
    alloc: Global,
    mut fields: Fields,
    call: F,
) -> Result<Outcome, Failure>
    requires { F.IsAlwaysCallable call }
{
    let bytes = fields.bytes()?;
    let mut output = Output::read(alloc, fields)?;
    let r = call(bytes, &mut output.bytes);
    output.compared(alloc, [r.number, r.length])
}

fn write_policy(alloc: Global, mut fields: Fields) -> Result<Outcome, Failure> {
    let mode = fields.number()?;
    let lifetime = fields.number()?;
    let patterns = fields.bytes()?;
    let lengths = fields.bytes()?;
    let mut output = Output::read(alloc, fields)?;
    let r = tweedstork::tweedstork_write_policy(
        mode,
        lifetime,
        patterns,
        lengths,
        &mut output.bytes,
    );
    output.compared(alloc, [r.number, r.length])
}

fn read_certificate(alloc: Global, mut fields: Fields) -> Result<Outcome, Failure> {
    let certificate = fields.bytes()?;
    let mut output = Output::read(alloc, fields)?;
    let r = tweedstork::tweedstork_read_certificate(certificate, &mut output.bytes);
    let got = [
        r.number,
        r.length,
        r.offset,
        r.key_start,
        r.key_length,
        r.dns_id_count,
        r.common_name_given,
        r.common_name_start,
        r.common_name_length,
    ];
    output.compared(alloc, got)
}

fn read_policy(alloc: Global, mut fields: Fields) -> Result<Outcome, Failure> {
    let body = fields.bytes()?;
    let expected = fields.answer()?;
    fields.end()?;
    let r = tweedstork::tweedstork_read_policy(body);
    let got = [r.number, r.mode, r.lifetime, r.mx_count, r.line, r.offset];
    compared(alloc, expected, got)
}

// The call has the 32 parameters of the C interface.
fn judge_host(alloc: Global, line: &Line, default: Option<&Line>) -> Result<Outcome, Failure> {
    let (f, expected) = Facts::of_case(alloc, line, default)?;
    let r = tweedstork::tweedstork_judge_host(
        f.number(b"clock"),
        f.bytes(b"next_hop"),
        f.number(b"expanded_next_hop_given"),
        f.bytes(b"expanded_next_hop"),
        f.number(b"origin"),
        f.bytes(b"host"),
        f.number(b"address"),
        f.bytes(b"expanded"),
        f.number(b"policy_given"),
        f.bytes(b"policy"),
        f.number(b"fetched"),
        f.number(b"tlsa_answers"),
        f.number(b"tlsa1_result"),
        f.bytes(b"tlsa1_lengths"),
        f.bytes(b"tlsa1_records"),
        f.number(b"tlsa2_result"),
        f.bytes(b"tlsa2_lengths"),
        f.bytes(b"tlsa2_records"),
        f.number(b"starttls"),
        f.number(b"handshake"),
        f.number(b"tls_version"),
        f.number(b"certificates_given"),
        f.bytes(b"certificates"),
        f.bytes(b"certificate_lengths"),
        f.bytes(b"key_places"),
        f.bytes(b"digests"),
        f.bytes(b"paths"),
        f.number(b"trusted_root"),
        f.bytes(b"dns_ids"),
        f.bytes(b"dns_id_lengths"),
        f.number(b"common_name_given"),
        f.bytes(b"common_name"),
    );
    compared(alloc, expected, judged(r))
}

// A case that gives a name of the leaf, which this call reads itself, can't be read.
fn judge_host_certificate(
    alloc: Global,
    line: &Line,
    default: Option<&Line>,
) -> Result<Outcome, Failure> {
    let (f, expected) = Facts::of_case(alloc, line, default)?;
    if f.has_leaf_names() {
        return Err(Unreadable);
    }
    let r = tweedstork::tweedstork_judge_host_certificate(
        f.number(b"clock"),
        f.bytes(b"next_hop"),
        f.number(b"expanded_next_hop_given"),
        f.bytes(b"expanded_next_hop"),
        f.number(b"origin"),
        f.bytes(b"host"),
        f.number(b"address"),
        f.bytes(b"expanded"),
        f.number(b"policy_given"),
        f.bytes(b"policy"),
        f.number(b"fetched"),
        f.number(b"tlsa_answers"),
        f.number(b"tlsa1_result"),
        f.bytes(b"tlsa1_lengths"),
        f.bytes(b"tlsa1_records"),
        f.number(b"tlsa2_result"),
        f.bytes(b"tlsa2_lengths"),
        f.bytes(b"tlsa2_records"),
        f.number(b"starttls"),
        f.number(b"handshake"),
        f.number(b"tls_version"),
        f.number(b"certificates_given"),
        f.bytes(b"certificates"),
        f.bytes(b"certificate_lengths"),
        f.bytes(b"key_places"),
        f.bytes(b"digests"),
        f.bytes(b"paths"),
        f.number(b"trusted_root"),
    );
    compared(alloc, expected, judged(r))
}

fn judged(r: HostAnswer) -> [u64; 2] {
    [r.number, r.tlsa_questions]
}

fn next_host(alloc: Global, mut fields: Fields) -> Result<Outcome, Failure> {
    let mx_lookup = fields.number()?;
    let preferences = fields.bytes()?;
    let verdicts = fields.bytes()?;
    let expected = fields.answer()?;
    fields.end()?;
    let r = tweedstork::tweedstork_next_host(mx_lookup, preferences, verdicts);
    compared(alloc, expected, [r.number, r.position])
}

// Compares a case's answers: where they differ, both.
pub(crate) fn compared<const N: usize>(
    alloc: Global,
    expected: [u64; N],
    got: [u64; N],
) -> Result<Outcome, Failure> {
    if expected == got {
        return Ok(Outcome::Passed);
    }
    let expected = Numbers(&expected);
    let got = Numbers(&got);
    Err(Answers(format!(in alloc; "expected {expected}, got {got}")?))
}
