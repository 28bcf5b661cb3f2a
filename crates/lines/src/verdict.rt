// What checks of a file's lines answer: the first line that breaks a rule, or none.
ghost use Rattle.std.specs.Prelude.{◌≡◌};
ghost use Rattle.lines.specs.Verdicts.{earlier};

// The fault that stands first: one reply may be asked for by two rules.
#[tactic(auto, using(std::proofs::lemmas::Bool::Decides::nat_tests), unfolding(crate::specs::Verdicts::earlier))]
pub fn earlier_of(a: Option<usize>, b: Option<usize>) -> Option<usize>
    ensures { result ≡ earlier a b }
{
    match (a, b) {
        (Some(i), Some(j)) => Some(i.min(j)),
        _ => a.or(b),
    }
}
