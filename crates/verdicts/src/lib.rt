// The verdicts on a host.
#![tactic(auto)]

ghost use Rattle.std.specs.Prelude.{◌≡◌};
ghost use Rattle.verdicts.specs.Verdicts.{is_delivery, is_next_host, is_verdict};

// Whether the verdict says "deliver".
#[tactic(auto, unfolding(crate::specs::Verdicts::is_delivery))]
pub fn is_delivery(v: u64) -> bool
    ensures { result ≡ is_delivery v }
{
    (1..=5).contains(&v)
}

// Whether the verdict says "next host".
#[tactic(auto, unfolding(crate::specs::Verdicts::is_next_host))]
pub fn is_next_host(v: u64) -> bool
    ensures { result ≡ is_next_host v }
{
    (20..=28).contains(&v)
}

// Whether the number is a verdict.
pub fn is_verdict(v: u64) -> bool
    ensures { result ≡ is_verdict v }
{
    is_delivery(v) || is_next_host(v)
}
