// The token of which a refusal is told.
ghost use Rattle.std.specs.Prelude.{◌≡◌, ◌≤◌, length, MatchOption};
ghost use Rattle.module_forms.specs.FirstFault.{StandsAt};

use erl_expressions::Refusal;
use erl_scan::Spot;

/// The token of which a refusal is told; none where the tokens end too soon.
pub fn told_token<'a>(refusal: Refusal, tokens: &'a [Spot]) -> Option<&'a Spot>
    requires { refusal.left ≤ length tokens.now }
    ensures { MatchOption result (refusal.left ≡ 0) (λ s. StandsAt tokens.now refusal.left s.now) }
{
    if refusal.left == 0 {
        return None;
    }
    Some(&tokens[tokens.len() - refusal.left])
}
