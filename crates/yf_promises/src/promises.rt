//! The promises, as the contract of a function.
ghost use Rattle.yf_promises.specs.Promises.{ContentIsOne, Promises, StreamsSayOne, yamlfmt};

use yf_rules::headline::headline;

/// Laws of every text and every style. The function does nothing; only its contract matters.
///
/// `yamlfmt` has the relations that the contracts of the commands `events`, `fmt` and `check` name, and `promises` says
/// what they mean for a user. A text is accepted if some derivation keeps the further rules, and the promises speak of
/// all derivations of it; the clause `meaning` says that these agree. By the clause `content`, documents say one
/// content.
pub fn promises()
    ensures promises { Promises yamlfmt }
    ensures meaning { StreamsSayOne }
    ensures content { ContentIsOne }
{
    headline();
}
