// Judging a host: what its facts come to, and what to learn next.
#![tactic(auto)]

ghost use Rattle.std.specs.Prelude.{◌≡◌};
ghost use Rattle.hosts.specs.Arguments.{said_by};
ghost use Rattle.hosts.specs.Call.{host_answer};
ghost use Rattle.hosts.specs.Stages.{answer_of_walk};

use certificates::Chain;
use numbers::Pieces;
use tlsa::Needs;

mod checks;
mod codes;
mod walk;

// The answer: its number, and how many TLSA answers the walk read.
#[repr(C)]
#[derive(Clone, Copy)]
pub struct HostAnswer {
    pub number: u64,
    pub tlsa_questions: u64,
}

// The numbers of the call, in the boundary's order.
#[derive(Clone, Copy)]
pub struct Numbers {
    pub clock: u64,
    pub expanded_next_hop_given: u64,
    pub origin: u64,
    pub address: u64,
    pub policy_given: u64,
    pub fetched: u64,
    pub tlsa_answers: u64,
    pub tlsa1_result: u64,
    pub tlsa2_result: u64,
    pub starttls: u64,
    pub handshake: u64,
    pub tls_version: u64,
    pub certificates_given: u64,
    pub trusted_root: u64,
    pub common_name_given: u64,
}

// The arguments of a call: its numbers and its byte slices, in the boundary's order. (Numbers that say whether a slice is given stand apart from it: the C interface.)
#[derive(Clone, Copy)]
pub struct HostCall<'a> {
    pub numbers: Numbers,
    pub next_hop: &'a [u8],
    pub expanded_next_hop: &'a [u8],
    pub host: &'a [u8],
    pub expanded: &'a [u8],
    pub policy: &'a [u8],
    pub tlsa1: Pieces<'a>,
    pub tlsa2: Pieces<'a>,
    pub chain: Chain<'a>,
    pub dns_ids: Pieces<'a>,
    pub common_name: &'a [u8],
}

// The set that was taken, or none: what it needs, whether it stands at the expanded name, whether it is that of the second answer,
// and how many answers were read.
#[derive(Clone, Copy)]
struct Found {
    needs: Needs,
    expanded: bool,
    second: bool,
    questions: u64,
}

// The answer of the call; an `Err` where a check refuses it, or the walk ends before the certificate facts decide.
#[inline(always)]
#[tactic(auto, using(crate::proofs::CallReturns::call_laws))]
fn answer(call: &HostCall<'_>) -> Result<HostAnswer, HostAnswer>
    ensures { answer_of_walk result ≡ host_answer (said_by call.now) }
{
    call.check_first()?;
    let given = call.read_policy();
    let policy = given.answer;
    if policy.number != policies::ACCEPTED {
        return Err(walk::say(policy.number, 0));
    }
    call.check_last()?;
    let sts = walk::policy_needs(policy, call.numbers.fetched, call.numbers.clock);
    let unlisted = walk::is_unlisted(sts, given.listed);
    call.walk(sts, unlisted)
}

// The answer of the call: a refusal; or the verdict on the host, or the question of the next fact to learn.
#[inline(always)]
pub fn judge(call: &HostCall<'_>) -> HostAnswer
    ensures { result ≡ host_answer (said_by call.now) }
{
    match answer(call) {
        Ok(verdict) => verdict,
        Err(ended) => ended,
    }
}
