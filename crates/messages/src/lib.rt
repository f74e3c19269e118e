// The hosts of a message: which of them is tried next, or what the delivery has come to.
#![tactic(auto)]

ghost use Rattle.std.specs.Prelude.{◌≡◌, ℕ, List, ◌<◌, ◌≤◌, length};
ghost use Rattle.numbers.specs.Numbers.{numbers};
ghost use Rattle.messages.specs.Hosts.{is_host_verdict, no_host, message_answer, hosts_answer, lists_answer, next_host};
ghost use Rattle.messages.specs.Search.{with_host, decided_by, Gives};

// The number of the answer, and the position of the host that decides, counted from 0 in the list as given; 0 where no host does.
#[repr(C)]
#[derive(Clone, Copy)]
pub struct MessageAnswer {
    pub number: u64,
    pub position: u64,
}

// How the MX lookup ended.
#[derive(Clone, Copy)]
pub enum MxLookup {
    Answered,
    Failed,
}

// A host of a message: its preference, its verdict, and its position in the list as given.
#[derive(Clone, Copy)]
struct Host {
    preference: u64,
    verdict: u64,
    position: u64,
}

// An answer that names no host.
#[tactic(auto, unfolding(crate::specs::Hosts::no_host))]
fn no_host(number: u64) -> MessageAnswer
    ensures { result ≡ no_host number }
{
    MessageAnswer {
        number,
        position: 0,
    }
}

// Whether v is a host verdict. Most verdicts of a list that is walked say "next host".
#[tactic(auto, using(crate::proofs::Returns::verdict_laws))]
fn is_host_verdict(v: u64) -> bool
    ensures { result ≡ is_host_verdict v }
{
    verdicts::is_next_host(v) || v == 9 || verdicts::is_delivery(v)
}

// The host that decides among those of `later` and one that was given before them.
#[tactic(auto, using(crate::proofs::Returns::with_laws))]
fn with_host(host: Host, later: Option<Host>) -> Option<Host>
    ensures { result ≡ with_host host later }
{
    if verdicts::is_next_host(host.verdict) {
        return later;
    }
    match later {
        Some(other) if other.preference < host.preference => later,
        _ => Some(host),
    }
}

// The answer of the host that decides, or of a list where none does.
#[tactic(auto, using(crate::proofs::Returns::decided_laws))]
fn decided_by(decider: Option<Host>) -> MessageAnswer
    ensures { result ≡ decided_by decider }
{
    match decider {
        None => no_host(31),
        Some(host) => MessageAnswer {
            number: if host.verdict == 9 { 8 } else { host.verdict },
            position: host.position,
        },
    }
}

// The answer of `count` hosts, by closures that give the preference and the verdict at a place. The hosts are looked at from the last to the first, so that of equal
// preferences the first given stays.
#[inline(always)]
fn walk_hosts<P: Fn(usize) -> u64, V: Fn(usize) -> u64>(
    count: usize,
    preference: P,
    verdict: V,
) -> MessageAnswer
    requires counted { (0 < count) × (count ≤ 32) }
    requires preferences { (k : ℕ) → k < count → P.pre preference k }
    requires verdicts { (k : ℕ) → k < count → V.pre verdict k }
    ensures { (ps vs : List ℕ) → Gives count (P.post preference) ps → Gives count (V.post verdict) vs → result ≡ message_answer ps vs }
{
    let mut decider = None;
    for k in (0..count).rev() {
        let host = Host {
            preference: preference(k),
            verdict: verdict(k),
            position: k as u64,
        };
        if 65535 < host.preference || !is_host_verdict(host.verdict) {
            return no_host(63);
        }
        decider = with_host(host, decider);
    }
    decided_by(decider)
}

// The answer of a message's hosts: the first `count` preferences, with a verdict each.
pub fn first_host(preferences: [u16; 32], verdicts: [u8; 32], count: usize) -> MessageAnswer
    ensures { result ≡ hosts_answer count preferences verdicts }
{
    if !(1..=32).contains(&count) {
        return no_host(63);
    }
    walk_hosts(
        count,
        |k| u64::from(preferences[k]),
        |k| u64::from(verdicts[k]),
    )
}

// The answer of two lists of `count` numbers, which are read into two arrays. A number that doesn't fit there is no preference, or no verdict: 63.
#[tactic(auto, using(crate::proofs::Arrays::read_laws))]
fn read_hosts(preferences: &[u8], verdicts: &[u8], count: usize) -> MessageAnswer
    requires { (count ≡ length (numbers preferences.now)) × (count ≡ length (numbers verdicts.now)) × (0 < count) × (count ≤ 32) }
    ensures { result ≡ message_answer (numbers preferences.now) (numbers verdicts.now) }
{
    let mut p = [0u16; 32];
    let mut v = [0u8; 32];
    for k in 0..count {
        let preference = numbers::number(preferences, k);
        if 65535 < preference {
            return no_host(63);
        }
        let verdict = numbers::number(verdicts, k);
        if 255 < verdict {
            return no_host(63);
        }
        p[k] = preference as u16;
        v[k] = verdict as u8;
    }
    first_host(p, v, count)
}

// The answer of the two lists, where the MX lookup was answered.
fn answer_of_lists(preferences: &[u8], verdicts: &[u8]) -> MessageAnswer
    ensures { result ≡ lists_answer preferences.now verdicts.now }
{
    if !numbers::is_whole(preferences) || !numbers::is_whole(verdicts) {
        return no_host(63);
    }
    let count = numbers::count(preferences);
    if !(1..=32).contains(&count) || numbers::count(verdicts) != count {
        return no_host(63);
    }
    read_hosts(preferences, verdicts, count)
}

// The answer of a message: how its MX lookup ended, and the lists of its hosts' preferences and verdicts.
#[tactic(auto, unfolding(crate::specs::Hosts::next_host))]
pub fn next_host(lookup: MxLookup, preferences: &[u8], verdicts: &[u8]) -> MessageAnswer
    ensures { result ≡ next_host lookup preferences.now verdicts.now }
{
    match lookup {
        MxLookup::Failed => no_host(30),
        MxLookup::Answered => answer_of_lists(preferences, verdicts),
    }
}
