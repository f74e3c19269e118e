// The codes of the call's numbers.
ghost use Rattle.std.specs.Prelude.{◌≡◌};
ghost use Rattle.tlsa.specs.Answer.{answer_of, answer_fits, answer_in, answer_keeps};
ghost use Rattle.hosts.specs.Arguments.{origin_of, address_of, is_alias, lookup_of};

use certificates::Origin;
use numbers::Pieces;
use tlsa::{Address, TlsaAnswer};

// A number by which C passes a choice.
#[derive(Clone, Copy)]
pub struct Code(pub u64);

// Where the host list came from.
impl From<Code> for Origin {
    ghost from_gives = { λ code origin. origin ≡ origin_of code.0 };

    fn from(code: Code) -> Origin {
        match code.0 {
            1 => Origin::SecureMx,
            2 => Origin::InsecureMx,
            _ => Origin::NoMx,
        }
    }
}

// The result of the lookup of the host's address.
impl From<Code> for Address {
    ghost from_gives = { λ code address. address ≡ address_of code.0 };

    fn from(code: Code) -> Address {
        match code.0 {
            1 => Address::NoAliasSecure,
            2 => Address::NoAliasInsecure,
            3 => Address::AliasSecure,
            4 => Address::AliasFirstStepSecure,
            5 => Address::AliasFirstStepInsecure,
            6 => Address::Failed,
            _ => Address::NoAddress,
        }
    }
}

// Whether the host is an alias.
pub fn is_alias(address: Address) -> bool
    ensures { result ≡ is_alias address }
{
    matches!(
        address,
        Address::AliasSecure | Address::AliasFirstStepSecure | Address::AliasFirstStepInsecure
    )
}

// A TLSA answer, by the code that says how its lookup ended.
#[tactic(auto, using(crate::proofs::FactsOf::answer_of_laws))]
pub fn answer_of(code: u64, records: Pieces<'_>) -> TlsaAnswer<'_>
    ensures value { answer_in result ≡ answer_of (lookup_of code) records.entry.lengths.now records.entry.bytes.now }
    ensures limits { answer_keeps result ≡ answer_fits (lookup_of code) records.entry.lengths.now records.entry.bytes.now }
{
    match code {
        1 => TlsaAnswer::Secure(records),
        2 => TlsaAnswer::Insecure,
        3 => TlsaAnswer::Absent,
        _ => TlsaAnswer::Failed,
    }
}
