// The argument checks: 67, 62, 60, 61, then 64 and 65. The policy's (50, 53 to 57, 52) stand between them, where its body is read.
ghost use Rattle.std.specs.Prelude.{◌≡◌, ◌&&◌};
ghost use Rattle.tlsa.specs.Answer.{answer_fits};
ghost use Rattle.lists.specs.Bytes.{within};
ghost use Rattle.hosts.specs.Arguments.{said_by, lookup_of};
ghost use Rattle.hosts.specs.Call.{if_supplied, host_fits, codes_fit, clocks_fit, next_hops_fit, host_names_fit, answers_fit, certificates_fit};
ghost use Rattle.hosts.specs.Stages.{base_codes_fit, later_codes_fit, certificate_codes_fit, first_refusal, last_refusal};

use super::codes::{self, Code};
use super::{HostAnswer, HostCall, Numbers, walk};
use certificates::Origin;
use clock::Reading;
use numbers::Pieces;
use tlsa::Address;

// Whether the code stands between low and high, both included.
fn is_within(low: u64, high: u64, code: u64) -> bool
    ensures { result ≡ within low high code }
{
    (low..=high).contains(&code)
}

// Whether the result of a TLSA lookup, if it is supplied, is one of its choices.
// (A `bool` and not an `Option`: C passes a count of the answers beside the numbers, and the `Option` would be made only to be asked here.)
#[tactic(auto, using(crate::proofs::ChecksReturns::supplied_laws))]
fn result_fits(supplied: bool, code: u64) -> bool
    ensures { result ≡ if_supplied supplied (within 1 4 code) }
{
    !supplied || is_within(1, 4, code)
}

// Whether a TLSA answer, if it is supplied, keeps the limits. (A `bool`, as in `result_fits`.)
#[tactic(auto, using(crate::proofs::ChecksReturns::answer_laws))]
fn answer_fits(supplied: bool, code: u64, records: Pieces<'_>) -> bool
    ensures { result ≡ if_supplied supplied (answer_fits (lookup_of code) records.entry.lengths.now records.entry.bytes.now) }
{
    !supplied || codes::answer_of(code, records).fits()
}

impl Numbers {
    // Whether the codes of the facts that are given in every call, and the number of TLSA answers, are among their choices.
    #[tactic(auto, using(crate::proofs::ChecksReturns::base_laws))]
    fn base_codes_fit(&self) -> bool
        ensures { result ≡ base_codes_fit self.now }
    {
        if !is_within(1, 2, self.expanded_next_hop_given) {
            return false;
        }
        if !is_within(1, 3, self.origin) {
            return false;
        }
        if !is_within(1, 7, self.address) {
            return false;
        }
        is_within(1, 2, self.policy_given) && self.tlsa_answers <= 2
    }

    // Whether the codes of the later facts, where these are supplied, are among their choices. The version of TLS has two bytes.
    #[tactic(auto, using(crate::proofs::ChecksReturns::later_laws))]
    fn later_codes_fit(&self) -> bool
        ensures { result ≡ later_codes_fit self.now }
    {
        if !result_fits(1 <= self.tlsa_answers, self.tlsa1_result) {
            return false;
        }
        if !result_fits(2 <= self.tlsa_answers, self.tlsa2_result) {
            return false;
        }
        if 2 < self.starttls {
            return false;
        }
        if 2 < self.handshake {
            return false;
        }
        if self.handshake == 1 && 65535 < self.tls_version {
            return false;
        }
        self.certificates_given <= 1
    }
}

impl HostCall<'_> {
    // Whether the yes/no numbers of certificate facts, if they are supplied, are a yes or a no each.
    #[tactic(auto, using(crate::proofs::ChecksReturns::certificate_laws))]
    fn certificate_codes_fit(&self) -> bool
        ensures { result ≡ certificate_codes_fit self.now.numbers self.now.chain.paths.now }
    {
        if self.numbers.certificates_given != 1 {
            return true;
        }
        if !certificates::all_yes_no(self.chain.paths) {
            return false;
        }
        certificates::is_yes_no(self.numbers.trusted_root)
            && certificates::is_yes_no(self.numbers.common_name_given)
    }

    // 67: whether every code and yes/no number is among its choices.
    #[tactic(auto, using(crate::proofs::ChecksReturns::codes_laws))]
    fn codes_fit(&self) -> bool
        ensures { result ≡ codes_fit (said_by self.now) }
    {
        if !self.numbers.base_codes_fit() {
            return false;
        }
        self.numbers.later_codes_fit() && self.certificate_codes_fit()
    }

    // 62: whether the present clock, and with a policy the clock of its fetch, are readings.
    #[tactic(auto, using(crate::proofs::ChecksReturns::clocks_laws))]
    fn clocks_fit(&self) -> bool
        ensures { result ≡ clocks_fit (said_by self.now) }
    {
        if !clock::is_reading(Reading(self.numbers.clock)) {
            return false;
        }
        self.numbers.policy_given != 1 || clock::is_reading(Reading(self.numbers.fetched))
    }

    // 60: whether the next-hop's name, and the expanded next-hop's if one is given, are good.
    #[tactic(auto, using(crate::proofs::ChecksReturns::hops_laws))]
    fn next_hops_fit(&self) -> bool
        ensures { result ≡ next_hops_fit (said_by self.now) }
    {
        if !names::is_name(self.next_hop) {
            return false;
        }
        self.numbers.expanded_next_hop_given != 1 || names::is_name(self.expanded_next_hop)
    }

    // Whether the host equals the next-hop, if there is no MX.
    #[tactic(auto, using(crate::proofs::ChecksReturns::host_laws))]
    fn host_fits(&self, origin: Origin) -> bool
        ensures { result ≡ host_fits origin self.now.host.now self.now.next_hop.now }
    {
        match origin {
            Origin::SecureMx | Origin::InsecureMx => true,
            Origin::NoMx => names::compare(self.host, self.next_hop).equal,
        }
    }

    // 61: whether the host's name, and the expanded name of an alias, are good.
    #[tactic(auto, using(crate::proofs::ChecksReturns::names_laws))]
    fn host_names_fit(&self) -> bool
        ensures { result ≡ host_names_fit (said_by self.now) }
    {
        if !names::is_name(self.host) {
            return false;
        }
        if !self.host_fits(Origin::from(Code(self.numbers.origin))) {
            return false;
        }
        !codes::is_alias(Address::from(Code(self.numbers.address))) || names::is_name(self.expanded)
    }

    // 64: whether each TLSA answer that is supplied keeps the limits.
    #[tactic(auto, using(crate::proofs::ChecksReturns::last_laws))]
    fn answers_fit(&self) -> bool
        ensures { result ≡ answers_fit (said_by self.now) }
    {
        let n = &self.numbers;
        answer_fits(1 <= n.tlsa_answers, n.tlsa1_result, self.tlsa1)
            && answer_fits(2 <= n.tlsa_answers, n.tlsa2_result, self.tlsa2)
    }

    // 65: whether certificate facts, if they are supplied, keep the limits.
    #[tactic(auto, using(crate::proofs::ChecksReturns::facts_laws))]
    fn certificates_fit(&self) -> bool
        ensures { result ≡ certificates_fit (said_by self.now) }
    {
        self.numbers.certificates_given != 1 || self.certificate_facts().fits()
    }

    // The first refusal among 67, 62, 60 and 61.
    #[tactic(auto, using(crate::proofs::ChecksReturns::first_laws))]
    pub(crate) fn check_first(&self) -> Result<(), HostAnswer>
        ensures { result ≡ first_refusal (said_by self.now) }
    {
        if !self.codes_fit() {
            return Err(walk::say(67, 0));
        }
        if !self.clocks_fit() {
            return Err(walk::say(62, 0));
        }
        if !self.next_hops_fit() {
            return Err(walk::say(60, 0));
        }
        if !self.host_names_fit() {
            return Err(walk::say(61, 0));
        }
        Ok(())
    }

    // The first refusal among 64 and 65.
    #[tactic(auto, using(crate::proofs::ChecksReturns::refusal_laws))]
    pub(crate) fn check_last(&self) -> Result<(), HostAnswer>
        ensures { result ≡ last_refusal (said_by self.now) }
    {
        if !self.answers_fit() {
            return Err(walk::say(64, 0));
        }
        if !self.certificates_fit() {
            return Err(walk::say(65, 0));
        }
        Ok(())
    }
}
