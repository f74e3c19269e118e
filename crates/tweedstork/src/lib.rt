// The C boundary: each call takes numbers, and slices of bytes or entries, of any contents, and answers for all of them. `include/tweedstork.h` declares them.
#![tactic(auto)]

ghost use Rattle.std.specs.Prelude.{◌≡◌, [], length};
ghost use Rattle.cache.specs.Store.{store_answer, table_after, texts_after};
ghost use Rattle.cache.specs.Lookup.{lookup_answer};
ghost use Rattle.hosts.specs.Arguments.{arguments_of};
ghost use Rattle.hosts.specs.Demands.{Judged};
ghost use Rattle.judging.specs.Judging.{certificate_answer};
ghost use Rattle.leaf.specs.Read.{read_certificate, wrote_places};
ghost use Rattle.policies.specs.Policy.{policy_answer};
ghost use Rattle.publish.specs.Calls.{write_txt_answer, write_txt_output, write_policy_answer, write_policy_output, rewrite_answer, rewrite_output};
ghost use Rattle.txt.specs.Txt.{read_txt, wrote_txt};
ghost use Rattle.tweedstork.specs.Calls.{next_host_answer, version};

use cache::{CacheAnswer, CacheEntry};
use certificates::Chain;
use hosts::{HostAnswer, HostCall, Numbers};
use leaf::CertificateAnswer;
use messages::{MessageAnswer, MxLookup};
use numbers::Pieces;
use policies::PolicyAnswer;
use txt::TxtAnswer;
use writing::WriteAnswer;

// The version of the archive; a C program holds it against the header's.
pub fn tweedstork_version() -> u64
    ensures { result ≡ version }
{
    10800
}

// Which MTA-STS record do these TXT RDATAs hold, and what is its id?
pub fn tweedstork_read_txt(rdatas: &[u8], lengths: &[u8], output: &mut [u8]) -> TxtAnswer
    ensures value { result ≡ read_txt rdatas.now lengths.now (length output.old) }
    ensures output_after { output.new ≡ wrote_txt rdatas.now lengths.now output.old }
{
    txt::read_txt(rdatas, lengths, output)
}

// What does the body of an MTA-STS policy say?
pub fn tweedstork_read_policy(body: &[u8]) -> PolicyAnswer
    ensures { result ≡ policy_answer body.now }
{
    policies::read_policy(body)
}

// May the relay deliver to this host, and how? Or what must it learn next?
pub fn tweedstork_judge_host<'a>(
    clock: u64,
    next_hop: &'a [u8],
    expanded_next_hop_given: u64,
    expanded_next_hop: &'a [u8],
    origin: u64,
    host: &'a [u8],
    address: u64,
    expanded: &'a [u8],
    policy_given: u64,
    policy: &'a [u8],
    fetched: u64,
    tlsa_answers: u64,
    tlsa1_result: u64,
    tlsa1_lengths: &'a [u8],
    tlsa1_records: &'a [u8],
    tlsa2_result: u64,
    tlsa2_lengths: &'a [u8],
    tlsa2_records: &'a [u8],
    starttls: u64,
    handshake: u64,
    tls_version: u64,
    certificates_given: u64,
    certificates: &'a [u8],
    certificate_lengths: &'a [u8],
    key_places: &'a [u8],
    digests: &'a [u8],
    paths: &'a [u8],
    trusted_root: u64,
    dns_ids: &'a [u8],
    dns_id_lengths: &'a [u8],
    common_name_given: u64,
    common_name: &'a [u8],
) -> HostAnswer
    ensures { Judged (arguments_of (record { clock = clock; expanded_next_hop_given = expanded_next_hop_given; origin = origin; address = address; policy_given = policy_given; fetched = fetched; tlsa_answers = tlsa_answers; tlsa1_result = tlsa1_result; tlsa2_result = tlsa2_result; starttls = starttls; handshake = handshake; tls_version = tls_version; certificates_given = certificates_given; trusted_root = trusted_root; common_name_given = common_name_given }) next_hop.now expanded_next_hop.now host.now expanded.now policy.now tlsa1_lengths.now tlsa1_records.now tlsa2_lengths.now tlsa2_records.now certificates.now certificate_lengths.now key_places.now digests.now paths.now dns_ids.now dns_id_lengths.now common_name.now) result }
{
    hosts::judge(&HostCall {
        numbers: Numbers {
            clock,
            expanded_next_hop_given,
            origin,
            address,
            policy_given,
            fetched,
            tlsa_answers,
            tlsa1_result,
            tlsa2_result,
            starttls,
            handshake,
            tls_version,
            certificates_given,
            trusted_root,
            common_name_given,
        },
        next_hop,
        expanded_next_hop,
        host,
        expanded,
        policy,
        tlsa1: Pieces {
            bytes: tlsa1_records,
            lengths: tlsa1_lengths,
        },
        tlsa2: Pieces {
            bytes: tlsa2_records,
            lengths: tlsa2_lengths,
        },
        chain: Chain {
            certificates,
            lengths: certificate_lengths,
            key_places,
            digests,
            paths,
        },
        dns_ids: Pieces {
            bytes: dns_ids,
            lengths: dns_id_lengths,
        },
        common_name,
    })
}

// Which DNS-IDs and which common name does this certificate have, and where does its public key info stand?
pub fn tweedstork_read_certificate(certificate: &[u8], places: &mut [u8]) -> CertificateAnswer
    ensures value { result ≡ read_certificate certificate.now (length places.old) }
    ensures places_after { places.new ≡ wrote_places certificate.now places.old }
{
    leaf::read_certificate(certificate, places)
}

// May the relay deliver to this host, and how? Or what must it learn next? The leaf's DNS-IDs, common name and key place are read of the leaf itself.
pub fn tweedstork_judge_host_certificate<'a>(
    clock: u64,
    next_hop: &'a [u8],
    expanded_next_hop_given: u64,
    expanded_next_hop: &'a [u8],
    origin: u64,
    host: &'a [u8],
    address: u64,
    expanded: &'a [u8],
    policy_given: u64,
    policy: &'a [u8],
    fetched: u64,
    tlsa_answers: u64,
    tlsa1_result: u64,
    tlsa1_lengths: &'a [u8],
    tlsa1_records: &'a [u8],
    tlsa2_result: u64,
    tlsa2_lengths: &'a [u8],
    tlsa2_records: &'a [u8],
    starttls: u64,
    handshake: u64,
    tls_version: u64,
    certificates_given: u64,
    certificates: &'a [u8],
    certificate_lengths: &'a [u8],
    key_places: &'a [u8],
    digests: &'a [u8],
    paths: &'a [u8],
    trusted_root: u64,
) -> HostAnswer
    ensures { result ≡ certificate_answer (arguments_of (record { clock = clock; expanded_next_hop_given = expanded_next_hop_given; origin = origin; address = address; policy_given = policy_given; fetched = fetched; tlsa_answers = tlsa_answers; tlsa1_result = tlsa1_result; tlsa2_result = tlsa2_result; starttls = starttls; handshake = handshake; tls_version = tls_version; certificates_given = certificates_given; trusted_root = trusted_root; common_name_given = 2 }) next_hop.now expanded_next_hop.now host.now expanded.now policy.now tlsa1_lengths.now tlsa1_records.now tlsa2_lengths.now tlsa2_records.now certificates.now certificate_lengths.now key_places.now digests.now paths.now [] [] []) }
{
    judging::judge_host_certificate(&HostCall {
        numbers: Numbers {
            clock,
            expanded_next_hop_given,
            origin,
            address,
            policy_given,
            fetched,
            tlsa_answers,
            tlsa1_result,
            tlsa2_result,
            starttls,
            handshake,
            tls_version,
            certificates_given,
            trusted_root,
            common_name_given: 2,
        },
        next_hop,
        expanded_next_hop,
        host,
        expanded,
        policy,
        tlsa1: Pieces {
            bytes: tlsa1_records,
            lengths: tlsa1_lengths,
        },
        tlsa2: Pieces {
            bytes: tlsa2_records,
            lengths: tlsa2_lengths,
        },
        chain: Chain {
            certificates,
            lengths: certificate_lengths,
            key_places,
            digests,
            paths,
        },
        dns_ids: Pieces {
            bytes: &[],
            lengths: &[],
        },
        common_name: &[],
    })
}

// Which of a message's hosts decides?
pub fn tweedstork_next_host(mx_lookup: u64, preferences: &[u8], verdicts: &[u8]) -> MessageAnswer
    ensures { result ≡ next_host_answer mx_lookup preferences.now verdicts.now }
{
    match mx_lookup {
        1 => messages::next_host(MxLookup::Answered, preferences, verdicts),
        2 => messages::next_host(MxLookup::Failed, preferences, verdicts),
        _ => MessageAnswer {
            number: 67,
            position: 0,
        },
    }
}

// Keeps this domain's policy, with its id and the call's clock as that of the fetch.
pub fn tweedstork_cache_store<'a, 'b, 'c>(
    clock: u64,
    domain: &'a [u8],
    id: &'a [u8],
    policy: &'a [u8],
    table: &'b mut [CacheEntry],
    texts: &'c mut [u8],
) -> WriteAnswer
    ensures { (result ≡ store_answer clock domain.now id.now policy.now table.old texts.old)
        × (table.new ≡ table_after clock domain.now id.now policy.now table.old texts.old)
        × (texts.new ≡ texts_after clock domain.now id.now policy.now table.old texts.old) }
{
    cache::store(clock, domain, id, policy, table, texts)
}

// Which live policy does the table hold for this domain?
pub fn tweedstork_cache_lookup(
    clock: u64,
    domain: &[u8],
    table: &[CacheEntry],
    texts: &[u8],
) -> CacheAnswer
    ensures { result ≡ lookup_answer clock domain.now table.now texts.now }
{
    cache::lookup(clock, domain, table, texts)
}

// The text of the TXT record that says which policy a domain has.
pub fn tweedstork_write_txt(id: &[u8], output: &mut [u8]) -> WriteAnswer
    ensures value { result ≡ write_txt_answer id.now (length output.old) }
    ensures output_after { output.new ≡ write_txt_output id.now output.old }
{
    publish::write_txt(id, output)
}

// The body of a policy with this mode, this lifetime and these patterns.
pub fn tweedstork_write_policy(
    mode: u64,
    lifetime: u64,
    patterns: &[u8],
    pattern_lengths: &[u8],
    output: &mut [u8],
) -> WriteAnswer
    ensures value { result ≡ write_policy_answer mode lifetime patterns.now pattern_lengths.now (length output.old) }
    ensures output_after { output.new ≡ write_policy_output mode lifetime patterns.now pattern_lengths.now output.old }
{
    publish::write_policy(mode, lifetime, patterns, pattern_lengths, output)
}

// The body of the policy that a body says, and no other field of it.
pub fn tweedstork_rewrite_policy(body: &[u8], output: &mut [u8]) -> WriteAnswer
    ensures value { result ≡ rewrite_answer body.now (length output.old) }
    ensures output_after { output.new ≡ rewrite_output body.now output.old }
{
    publish::rewrite_policy(body, output)
}
