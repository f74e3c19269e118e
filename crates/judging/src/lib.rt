// Judging a host by a leaf certificate that we read ourselves.
#![tactic(auto)]

ghost use Rattle.std.specs.Prelude.{◌≡◌, [], ◌∷◌, ◌++◌, ◌+◌, ◌<◌, ◌≤◌, ◌^◌, length, option_copied};
ghost use Rattle.numbers.specs.Numbers.{written};
ghost use Rattle.certificates.specs.Limits.{chain_fits};
ghost use Rattle.hosts.specs.Arguments.{said_by};
ghost use Rattle.hosts.specs.Call.{host_answer, refused};
ghost use Rattle.judging.specs.declared.Refusal.TheVariants.{Leaf};
ghost use Rattle.judging.specs.Texts.{place_of};
ghost use Rattle.judging.specs.Judging.{nameless, certificate_answer};
ghost use Rattle.judging.specs.Stages.{number_of, leaf_in, chain_read, unplaced_call, refused_after};

use certificates::Chain;
use hosts::{HostAnswer, HostCall, Numbers};
use numbers::Pieces;
use read_call::ReadCall;
use x509::{Found, Part};

mod read_call;

// 65, the plain call's last refusal: certificate facts outside the limits.
const CERTIFICATES_OUTSIDE_LIMITS: u64 = 65;

// Why the certificates are refused: they are outside the limits, or the leaf is refused.
#[derive(Clone, Copy, Debug, PartialEq, Eq)]
enum Refusal {
    OutsideLimits,
    Leaf(leaf::ReadError),
}

impl From<leaf::ReadError> for Refusal {
    ghost from_gives = { λ e r. r ≡ Leaf e };

    fn from(error: leaf::ReadError) -> Refusal {
        Refusal::Leaf(error)
    }
}

impl Refusal {
    // Its number.
    #[tactic(auto, unfolding(crate::specs::Stages::number_of))]
    fn number(self) -> u64
        ensures { result ≡ number_of self }
    {
        match self {
            Refusal::OutsideLimits => CERTIFICATES_OUTSIDE_LIMITS,
            Refusal::Leaf(leaf::ReadError::Malformed(_)) => 90,
            Refusal::Leaf(leaf::ReadError::ManyDnsIds) => 91,
        }
    }
}

// The leaf, the first certificate, where certificate facts are given with one.
#[tactic(auto, unfolding(crate::specs::Stages::leaf_in, crate::specs::Judging::has_leaf, crate::specs::Judging::is_present))]
fn leaf_in<'a>(call: &HostCall<'a>) -> Option<&'a [u8]>
    ensures { option_copied result ≡ leaf_in (said_by call.now) }
{
    if call.numbers.certificates_given != 1 {
        return None;
    }
    let mut certificates = Pieces {
        bytes: call.chain.certificates,
        lengths: call.chain.lengths,
    };
    certificates.next()
}

// The place of the leaf's key before those of the other certificates, over the front of `room`.
fn places<'a>(key: Part, others: &[u8], room: &'a mut [u8]) -> &'a [u8]
    requires { (key.start < 2 ^ 32) × (key.end < 2 ^ 32) × (8 + length others.now ≤ length room.old) }
    ensures { result.now ≡ place_of key ++ others.now }
{
    let end = 8 + others.len();
    room[..4].copy_from_slice(&(key.start as u32).to_be_bytes());
    room[4..8].copy_from_slice(&(leaf::size_of(key) as u32).to_be_bytes());
    room[8..end].copy_from_slice(others);
    &room[..end]
}

// Whether the lists for the certificates keep the limits, with an empty place for the leaf's key.
#[tactic(auto, using(crate::proofs::Returns::chain_long))]
fn chain_keeps(chain: &Chain<'_>) -> bool
    ensures { result ≡ chain_fits chain.now.certificates.now chain.now.lengths.now (written (0 ∷ 0 ∷ []) ++ chain.now.key_places.now) chain.now.digests.now chain.now.paths.now }
{
    if 56 < chain.key_places.len() {
        return false;
    }
    let mut room = [0; 64];
    let places = places(Part { start: 0, end: 0 }, chain.key_places, &mut room);
    Chain {
        key_places: places,
        ..*chain
    }
    .fits()
}

// What is found in the leaf, or why the certificates are refused: outside the limits before the leaf is read.
#[tactic(auto, unfolding(crate::specs::Stages::chain_read, crate::specs::Stages::read_as))]
fn read_chain(leaf: &[u8], chain: &Chain<'_>) -> Result<Found, Refusal>
    ensures { result ≡ chain_read leaf.now chain.now.certificates.now chain.now.lengths.now chain.now.key_places.now chain.now.digests.now chain.now.paths.now }
{
    if !chain_keeps(chain) {
        return Err(Refusal::OutsideLimits);
    }
    Ok(leaf::read_leaf(leaf)?)
}

// The plain call's answer. Its code stands once in this crate, which asks for it at three places.
#[inline(never)]
fn plain_answer(call: &HostCall<'_>) -> HostAnswer
    ensures { result ≡ host_answer (said_by call.now) }
{
    hosts::judge(call)
}

// The answer where the certificates are refused: without any key place the plain call refuses too, with 65 at the latest, and any other refusal of its comes before.
#[tactic(auto, unfolding(crate::specs::Stages::refused_after))]
#[inline(always)]
fn judge_refused(call: &HostCall<'_>, refusal: Refusal) -> HostAnswer
    ensures { result ≡ refused_after (host_answer (unplaced_call (said_by call.now))) (number_of refusal) }
{
    let before = plain_answer(&HostCall {
        chain: Chain {
            key_places: &[],
            ..call.chain
        },
        ..*call
    });
    if before.number != CERTIFICATES_OUTSIDE_LIMITS {
        return before;
    }
    HostAnswer {
        number: refusal.number(),
        tlsa_questions: 0,
    }
}

// The answer of the call that judges a host by its leaf certificate. The names of the leaf that the call gives, and the code for the common name, are not looked at.
#[inline(always)]
pub fn judge_host_certificate(call: &HostCall<'_>) -> HostAnswer
    ensures { result ≡ certificate_answer (nameless (said_by call.now)) }
{
    let call = HostCall {
        numbers: Numbers {
            common_name_given: 2,
            ..call.numbers
        },
        dns_ids: Pieces {
            bytes: &[],
            lengths: &[],
        },
        common_name: &[],
        ..*call
    };
    match leaf_in(&call) {
        None => plain_answer(&call),
        Some(leaf) => match read_chain(leaf, &call.chain) {
            Ok(found) => {
                let read = ReadCall {
                    call: &call,
                    leaf,
                    found,
                };
                read.judge()
            }
            Err(refusal) => judge_refused(&call, refusal),
        },
    }
}
