// Opening commitments 2 and 3 by an answer to challenge 1.
ghost use Rattle.std.specs.Prelude.{◌≡◌, ◌*◌, ◌≤◌, true, length};
ghost use Rattle.std.specs.Result.{result_err};
ghost use Rattle.vectors.specs.Residues.{below, plus};
ghost use Rattle.vectors.specs.Words.{bytes, words};
ghost use Rattle.commitment.specs.Meaning.{Fresh};
ghost use Rattle.answer_openings.specs.Openings.{pair_cause};

use crate::opening::{Shown, opens_by};
use commitment::scheme::Scheme;
use openings::decoding::add_words;
use refusals::cause::Cause;
use vectors::part::Part;

// The second commitment to P(R), whose bytes are given, then the third to P(E) + P(R); `sum` holds P(E) before and the sum afterwards.
pub fn open_first<S: Scheme>(
    scheme: &mut S,
    second: Shown,
    third: Shown,
    mask: &[u8],
    sum: &mut [u16],
    q: u16,
) -> Result<(), Cause>
    requires lengths { length mask.now ≡ 2 * length sum.old }
    requires sum { below q sum.old ≡ true }
    requires mask { below q (words mask.now) ≡ true }
    requires mask_bytes { bytes (words mask.now) ≡ mask.now }
    requires second { length second.coins.now ≡ (S.Scheme.meaning scheme.old).width }
    requires third { length third.coins.now ≡ (S.Scheme.meaning scheme.old).width }
    requires limit { length mask.now ≤ (S.Scheme.meaning scheme.old).limit }
    ensures verdict { result_err result ≡ pair_cause (S.Scheme.meaning scheme.old) second.entry (bytes (words mask.now)) third.entry (bytes (plus q sum.old (words mask.now))) }
    ensures fresh { Fresh (S.Scheme.meaning scheme.old) (S.Scheme.state scheme.new) }
    ensures kept { S.Scheme.meaning scheme.new ≡ S.Scheme.meaning scheme.old }
{
    second.check(opens_by(scheme, second, Part::Bytes(mask)))?;
    add_words(sum, mask, q);
    third.check(opens_by(scheme, third, Part::Words(sum)))
}
