// A call whose leaf is read.
ghost use Rattle.std.specs.Prelude.{◌≡◌, ◌≤◌, length, Ok};
ghost use Rattle.hosts.specs.Arguments.{said_by};
ghost use Rattle.hosts.specs.Call.{host_answer};
ghost use Rattle.leaf.specs.Read.{read_leaf};
ghost use Rattle.judging.specs.Texts.{names_text, lengths_text, given_of, common_name_in};
ghost use Rattle.judging.specs.Judging.{on_read};

use crate::places;
use certificates::Chain;
use hosts::{HostAnswer, HostCall, Numbers};
use numbers::Pieces;
use x509::{Found, Part};

// A call whose certificates keep the limits, its leaf, and what is found in it.
#[derive(Clone, Copy)]
pub struct ReadCall<'a> {
    pub call: &'a HostCall<'a>,
    pub leaf: &'a [u8],
    pub found: Found,
    ghost is_read: { read_leaf leaf.now ≡ Ok found },
    ghost leaf_fits: { length leaf.now ≤ 16384 },
    ghost places_fit: { length call.now.chain.key_places.now ≤ 56 },
}

impl ReadCall<'_> {
    // The DNS-IDs of the leaf, one after another over the front of `names`, and the list of their lengths over that of `lengths`.
    fn gather<'a>(&self, names: &'a mut [u8], lengths: &'a mut [u8]) -> Pieces<'a>
        requires { (length self.now.leaf.now ≤ length names.old) × (256 ≤ length lengths.old) }
        ensures { (result.bytes.now ≡ names_text self.now.leaf.now self.now.found) × (result.lengths.now ≡ lengths_text self.now.leaf.now self.now.found) }
    {
        // Two places by hand: a name moves the one by its own length, and the other by four bytes, so that neither is a count of turns.
        let mut n = 0;
        let mut k = 0;
        for id in leaf::dns_ids_of(self.leaf, self.found) {
            let name = &self.leaf[id.start..id.end];
            let size = (name.len() as u32).to_be_bytes();
            names[n..n + name.len()].copy_from_slice(name);
            lengths[k..k + 4].copy_from_slice(&size);
            n += name.len();
            k += 4;
        }
        Pieces {
            bytes: &names[..n],
            lengths: &lengths[..k],
        }
    }

    // The plain call's answer on the facts read of a leaf of at most N bytes.
    #[tactic(auto, using(crate::proofs::Returns::key_laws), unfolding(crate::specs::Judging::on_read))]
    fn judge_in<const N: usize>(&self) -> HostAnswer
        requires { (length self.now.leaf.now ≤ N) × (N ≤ 16384) }
        ensures { result ≡ host_answer (on_read (said_by self.now.call.now) self.now.leaf.now self.now.found) }
    {
        let call = self.call;
        // Fixed memory, since the library has no heap.
        let mut key_places = [0; 64];
        let mut names = [0; N];
        let mut lengths = [0; 256];
        super::plain_answer(&HostCall {
            numbers: Numbers {
                common_name_given: given_of(self.found.name),
                ..call.numbers
            },
            chain: Chain {
                key_places: places(self.found.key, call.chain.key_places, &mut key_places),
                ..call.chain
            },
            dns_ids: self.gather(&mut names, &mut lengths),
            common_name: common_name_in(self.leaf, self.found.name),
            ..*call
        })
    }

    // The same: a short leaf has less room to clear.
    pub fn judge(&self) -> HostAnswer
        ensures { result ≡ host_answer (on_read (said_by self.now.call.now) self.now.leaf.now self.now.found) }
    {
        if self.leaf.len() <= 2000 {
            self.judge_in::<2000>()
        } else {
            self.judge_in::<16384>()
        }
    }
}

// The code that says whether there is a common name. Code and bytes stand apart, as C passes them.
#[tactic(auto, unfolding(crate::specs::Texts::given_of))]
fn given_of(name: Option<Part>) -> u64
    ensures { result ≡ given_of name }
{
    match name {
        Some(_) => 1,
        None => 2,
    }
}

// The common name, or no bytes.
#[tactic(auto, unfolding(crate::specs::Texts::common_name_in))]
fn common_name_in(s: &[u8], name: Option<Part>) -> &[u8]
    ensures { result.now ≡ common_name_in s.now name }
{
    match name {
        Some(p) => numbers::part(s, p.start, leaf::size_of(p) as u64),
        None => &[],
    }
}
