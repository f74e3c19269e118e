// The walk over the facts that are given. An `Err` is the answer of a call whose walk ends there.
ghost use Rattle.std.specs.Prelude.{◌≡◌, cond, not, ◌&&◌, ◌||◌, ◌≤◌, eqb, leb};
ghost use Rattle.tlsa.specs.Answer.{records_in, answer_of};
ghost use Rattle.certificates.specs.Facts.{when, presented_by};
ghost use Rattle.certificates.specs.Limits.{facts_keep};
ghost use Rattle.certificates.specs.Checks.{references, dane_passes, shows_host};
ghost use Rattle.hosts.specs.Rules.{is_authentication, is_tls, last_verdict};
ghost use Rattle.hosts.specs.Arguments.{said_by, origin_of, lookup_of, offered_of, outcome_of, presented_in};
ghost use Rattle.hosts.specs.Call.{if_supplied, certificates_fit};
ghost use Rattle.hosts.specs.Stages.{given_policy, policy_needs, read_given, later_given, asking, saying, host_read, at_host, expanded_read, at_expanded, names_stage, first_stage, handshake_stage, connection, domain_of, records_at, certificate_verdict, walk_answer, answer_of_walk};

use super::codes::{self, Code};
use super::{Found, HostAnswer, HostCall, Numbers};
use certificates::{CertificateFacts, Origin, ReferenceNames};
use clock::{Lifetime, Reading};
use numbers::Pieces;
use policies::{PolicyAnswer, PolicyFor};
use tlsa::{Address, Needs, Read, Tries};

// TLS 1.2: its two wire bytes as one number.
const TLS_1_2: u64 = 0x0303;

// An answer of the call, after so many TLSA answers were read.
pub fn say(number: u64, questions: u64) -> HostAnswer
    ensures { result ≡ saying number questions }
{
    HostAnswer {
        number,
        tlsa_questions: questions,
    }
}

// A question, after so many TLSA answers were read: 66 where a later fact is given.
#[tactic(auto, using(crate::proofs::WalkReturns::ask_laws))]
fn ask(number: u64, questions: u64, later: bool) -> HostAnswer
    ensures { result ≡ asking number questions later }
{
    if later {
        return say(66, 0);
    }
    say(number, questions)
}

// Whether the policy is a live enforce policy, which needs the MTA-STS check.
#[tactic(auto, using(crate::proofs::WalkReturns::policy_needs_laws))]
pub fn policy_needs(policy: PolicyAnswer, fetched: u64, present: u64) -> bool
    ensures { result ≡ policy_needs policy fetched present }
{
    if policy.mode != policies::ENFORCE {
        return false;
    }
    clock::is_live(
        Reading(fetched),
        Lifetime(policy.lifetime),
        Reading(present),
    )
}

// Whether the MTA-STS check is needed and the policy does not list the host.
pub fn is_unlisted(needed: bool, listed: bool) -> bool
    ensures { result ≡ (needed && not listed) }
{
    needed && !listed
}

// What reading a TLSA answer comes to, where it is given. (A `bool` here, since C passes a count of the answers: the `Option` begins with what this returns.)
#[tactic(auto, using(crate::proofs::WalkReturns::read_laws))]
fn read_given(given: bool, code: u64, records: Pieces<'_>) -> Option<Read>
    ensures { result ≡ read_given (when given (answer_of (lookup_of code) records.entry.lengths.now records.entry.bytes.now)) }
{
    if !given {
        return None;
    }
    Some(codes::answer_of(code, records).read())
}

// What follows an answer that was read at the host name, the last name: 22, its set, or no set.
#[tactic(auto, using(crate::proofs::WalkReturns::host_read_laws))]
fn read_at_host(second: bool, before: u64, read: Read) -> Result<Found, HostAnswer>
    requires { before ≤ 1 }
    ensures { result ≡ host_read second before read }
{
    let questions = before + 1;
    match read {
        Read::LookupFailed => Err(say(22, questions)),
        Read::Taken(needs) => Ok(Found {
            needs,
            expanded: false,
            second,
            questions,
        }),
        Read::NextName => Ok(Found {
            needs: Needs::Nothing,
            expanded: false,
            second: false,
            questions,
        }),
    }
}

// The host name, whose answer is the first or the second; `before` are the answers read before it.
#[tactic(auto, using(crate::proofs::WalkReturns::host_laws))]
fn at_host(second: bool, before: u64, later: bool, given: Option<Read>) -> Result<Found, HostAnswer>
    requires { before ≤ 1 }
    ensures { result ≡ at_host second before later given }
{
    match given {
        None => Err(ask(14, before, later)),
        Some(read) => read_at_host(second, before, read),
    }
}

// What follows an answer that was read at the expanded name: 22, its set, or the host name.
#[tactic(auto, using(crate::proofs::WalkReturns::expanded_read_laws))]
fn read_at_expanded(later: bool, second: Option<Read>, read: Read) -> Result<Found, HostAnswer>
    ensures { result ≡ expanded_read later second read }
{
    match read {
        Read::LookupFailed => Err(say(22, 1)),
        Read::Taken(needs) => Ok(Found {
            needs,
            expanded: true,
            second: false,
            questions: 1,
        }),
        Read::NextName => at_host(true, 1, later, second),
    }
}

// The expanded name, whose answer is the first, then the host name.
#[tactic(auto, using(crate::proofs::WalkReturns::expanded_laws))]
fn at_expanded(
    later_than_first: bool,
    later_than_second: bool,
    first: Option<Read>,
    second: Option<Read>,
) -> Result<Found, HostAnswer>
    ensures { result ≡ at_expanded later_than_first later_than_second first second }
{
    match first {
        None => Err(ask(13, 0, later_than_first)),
        Some(read) => read_at_expanded(later_than_second, second, read),
    }
}

// The names to try: 20, 21, then 23, then the answers.
#[tactic(auto, using(crate::proofs::WalkReturns::names_laws))]
fn at_names(
    tries: Tries,
    unlisted: bool,
    later_than_first: bool,
    later_than_second: bool,
    first: Option<Read>,
    second: Option<Read>,
) -> Result<Found, HostAnswer>
    ensures { result ≡ names_stage tries unlisted later_than_first later_than_second first second }
{
    match tries {
        Tries::AddressFailed => Err(say(20, 0)),
        Tries::AddressMissing => Err(say(21, 0)),
        _ if unlisted => Err(say(23, 0)),
        Tries::NoName => Ok(Found {
            needs: Needs::Nothing,
            expanded: false,
            second: false,
            questions: 0,
        }),
        Tries::HostOnly => at_host(false, 0, later_than_first, first),
        Tries::ExpandedThenHost => {
            at_expanded(later_than_first, later_than_second, first, second)
        }
    }
}

// Whether the set needs DANE authentication.
fn is_authentication(needs: Needs) -> bool
    ensures { result ≡ is_authentication needs }
{
    matches!(needs, Needs::Authentication)
}

// The number where anything is needed, else delivery in cleartext. `sts`: whether the MTA-STS check is needed.
#[tactic(auto, using(crate::proofs::WalkReturns::unless_laws))]
fn unless_needed(number: u64, needs: Needs, sts: bool) -> u64
    ensures { result ≡ cond (is_tls needs || sts) number 1 }
{
    match needs {
        Needs::Nothing if !sts => 1,
        _ => number,
    }
}

// The verdict of an established handshake, by what is needed and passes.
#[tactic(auto, using(crate::proofs::WalkReturns::last_laws))]
fn last_verdict(dane: bool, sts: bool, dane_passed: bool, sts_passed: bool) -> u64
    ensures { result ≡ last_verdict dane sts dane_passed sts_passed }
{
    if dane && !dane_passed {
        return 26;
    }
    if sts && !sts_passed {
        return 27;
    }
    match (dane, sts) {
        (true, true) => 5,
        (true, false) => 3,
        (false, true) => 4,
        (false, false) => 2,
    }
}

impl Numbers {
    // Whether a fact after STARTTLS is given.
    #[tactic(auto, using(crate::proofs::WalkReturns::handshake_given_laws))]
    fn later_than_starttls(&self) -> bool
        ensures { result ≡ (not (eqb self.now.handshake 0) || eqb self.now.certificates_given 1) }
    {
        self.handshake != 0 || self.certificates_given == 1
    }

    // Whether a fact after the TLSA answers is given.
    #[tactic(auto, using(crate::proofs::WalkReturns::later_laws))]
    fn later_given(&self) -> bool
        ensures { result ≡ later_given self.now.starttls self.now.handshake self.now.certificates_given }
    {
        self.starttls != 0 || self.later_than_starttls()
    }

    // Whether a fact after the first TLSA answer is given.
    #[tactic(auto, using(crate::proofs::WalkReturns::after_first_laws))]
    fn later_than_first(&self) -> bool
        ensures { result ≡ (leb 2 self.now.tlsa_answers || later_given self.now.starttls self.now.handshake self.now.certificates_given) }
    {
        2 <= self.tlsa_answers || self.later_given()
    }

    // The handshake, once STARTTLS is offered: where it is established and what is needed takes them, the certificate facts decide.
    #[tactic(auto, using(crate::proofs::WalkReturns::handshake_laws))]
    fn at_handshake(&self, questions: u64, needs: Needs, sts: bool) -> Result<(), HostAnswer>
        ensures { result ≡ handshake_stage questions needs sts (outcome_of self.now.handshake self.now.tls_version) (eqb self.now.certificates_given 1) }
    {
        let given = self.certificates_given == 1;
        if self.handshake == 0 {
            return Err(ask(11, questions, given));
        }
        if self.handshake != 1 {
            return Err(say(unless_needed(25, needs, sts), questions));
        }
        if !is_authentication(needs) && !sts {
            return Err(say(2, questions));
        }
        if self.tls_version < TLS_1_2 {
            return Err(say(28, questions));
        }
        if !given {
            return Err(say(12, questions));
        }
        Ok(())
    }

    // STARTTLS, then the handshake.
    #[tactic(auto, using(crate::proofs::WalkReturns::starttls_laws))]
    fn at_starttls(&self, questions: u64, needs: Needs, sts: bool) -> Result<(), HostAnswer>
        ensures { result ≡ connection questions needs sts (offered_of self.now.starttls) (outcome_of self.now.handshake self.now.tls_version) (eqb self.now.certificates_given 1) }
    {
        if self.starttls == 0 {
            let later = self.later_than_starttls();
            return Err(ask(10, questions, later));
        }
        if self.starttls != 1 {
            return Err(say(unless_needed(24, needs, sts), questions));
        }
        self.at_handshake(questions, needs, sts)
    }
}

impl<'a> HostCall<'a> {
    // The answer to the policy, and whether it lists the host; where none is given, an answer that is no refusal and needs nothing.
    #[tactic(auto, using(crate::proofs::WalkReturns::policy_laws))]
    pub(crate) fn read_policy(&self) -> PolicyFor
        ensures { result ≡ given_policy self.now.numbers.policy_given self.now.policy.now self.now.host.now }
    {
        if self.numbers.policy_given == 1 {
            return policies::read_policy_for(self.policy, self.host);
        }
        PolicyFor {
            answer: PolicyAnswer {
                number: policies::ACCEPTED,
                mode: policies::NONE,
                lifetime: 0,
                mx_count: 0,
                line: 0,
                offset: 0,
            },
            listed: false,
        }
    }

    // The certificate facts.
    pub(crate) fn certificate_facts(&self) -> CertificateFacts<'a>
        ensures value { presented_by result ≡ presented_in (said_by self.now) }
        ensures limits { if_supplied (eqb self.now.numbers.certificates_given 1) (facts_keep result) ≡ certificates_fit (said_by self.now) }
    {
        CertificateFacts {
            chain: self.chain,
            trusted_root: self.numbers.trusted_root == 1,
            dns_ids: self.dns_ids,
            common_name: (self.numbers.common_name_given == 1).then_some(self.common_name),
        }
    }

    // The name at which the set was found.
    fn domain_of(&self, found: Found) -> &'a [u8]
        ensures { result.now ≡ domain_of (said_by self.now) found }
    {
        if found.expanded {
            return self.expanded;
        }
        self.host
    }

    // The records of the set that was found.
    fn records_of(&self, found: Found) -> Pieces<'a>
        ensures { records_in result ≡ records_at (said_by self.now) found }
    {
        if found.second {
            return self.tlsa2;
        }
        self.tlsa1
    }

    // What the TLSA answers come to: the set that was found, or none.
    #[tactic(auto, using(crate::proofs::WalkReturns::stage_laws))]
    fn find_set(&self, unlisted: bool) -> Result<Found, HostAnswer>
        ensures { result ≡ first_stage (said_by self.now) unlisted }
    {
        let n = &self.numbers;
        let first = read_given(1 <= n.tlsa_answers, n.tlsa1_result, self.tlsa1);
        let second = read_given(2 <= n.tlsa_answers, n.tlsa2_result, self.tlsa2);
        let tries = tlsa::names_to_try(Address::from(Code(n.address)));
        let later = n.later_given();
        at_names(tries, unlisted, n.later_than_first(), later, first, second)
    }

    // Whether DANE passes with the set that was found, where it is needed. (A closure for the step would be no plainer: there are two, each with one caller.)
    #[tactic(auto, using(crate::proofs::WalkReturns::needed_laws))]
    fn dane_passes(&self, needed: bool, found: Found, facts: &CertificateFacts<'_>) -> bool
        ensures { result ≡ (not needed || dane_passes (references (origin_of self.now.numbers.origin) (domain_of (said_by self.now) found) self.now.next_hop.now (when (eqb self.now.numbers.expanded_next_hop_given 1) self.now.expanded_next_hop.now)) (records_at (said_by self.now) found) (presented_by facts.now)) }
    {
        if !needed {
            return true;
        }
        let names = ReferenceNames {
            origin: Origin::from(Code(self.numbers.origin)),
            domain: self.domain_of(found),
            next_hop: self.next_hop,
            expanded_next_hop: (self.numbers.expanded_next_hop_given == 1).then_some(
                self.expanded_next_hop,
            ),
        };
        facts.dane_passes(self.records_of(found), &names)
    }

    // Whether the certificate facts show the host, where the MTA-STS check is needed. (A `bool`, as in `dane_passes`.)
    #[tactic(auto, using(crate::proofs::WalkReturns::needed_laws))]
    fn shows_host(&self, needed: bool, facts: &CertificateFacts<'_>) -> bool
        ensures { result ≡ (not needed || shows_host self.now.host.now (presented_by facts.now)) }
    {
        !needed || facts.shows_host(self.host)
    }

    // The verdict at certificate facts. `sts`: whether the MTA-STS check is needed.
    #[tactic(auto, using(crate::proofs::WalkReturns::verdict_laws))]
    fn certificate_verdict(&self, found: Found, sts: bool) -> u64
        ensures { result ≡ certificate_verdict (said_by self.now) found sts }
    {
        let facts = self.certificate_facts();
        let dane = is_authentication(found.needs);
        let dane_passed = self.dane_passes(dane, found, &facts);
        let sts_passed = self.shows_host(sts, &facts);
        last_verdict(dane, sts, dane_passed, sts_passed)
    }

    // The answer of the walk. `sts` and `unlisted`: whether the MTA-STS check is needed, and whether no pattern then matches the host.
    #[tactic(auto, using(crate::proofs::WalkReturns::walk_laws))]
    pub(crate) fn walk(&self, sts: bool, unlisted: bool) -> Result<HostAnswer, HostAnswer>
        ensures { answer_of_walk result ≡ walk_answer (said_by self.now) sts unlisted }
    {
        let found = self.find_set(unlisted)?;
        let questions = found.questions;
        self.numbers.at_starttls(questions, found.needs, sts)?;
        Ok(say(self.certificate_verdict(found, sts), questions))
    }
}
