// The lent memory of a console's lines: how long a line's part is, and the mask in it.
ghost use Rattle.std.specs.Prelude.{◌≡◌, ◌+◌, ◌*◌, ◌<◌, ◌≤◌, ◌||◌, length, nat_lt};
ghost use Rattle.console_steps.specs.State.{mask_size, coins_size, mask_in as mask_on_line};
ghost use Rattle.masks.specs.Held.{mask_in};

use commitment::scheme::Scheme;
use masks::mask::Mask;
use relation::Relation;

// How many numbers a line's part holds.
#[tactic(auto, using(crate::proofs::Room::few_entries))]
pub(crate) fn mask_size<R: Relation>(relation: &R) -> usize
    ensures size { result ≡ 2 * ((R.Relation.meaning relation.now).layer_count * (R.Relation.meaning relation.now).layer_len) + (R.Relation.meaning relation.now).free_len }
    ensures bounded { result ≤ 23296 }
{
    2 * (relation.layer_count() * relation.layer_len()) + relation.free_len()
}

// How many coins a line's part holds.
pub(crate) fn coins_size<S: Scheme>(scheme: &S) -> usize
    ensures size { result ≡ 3 * (S.Scheme.meaning scheme.now).width }
    ensures bounded { result ≤ 384 }
{
    3 * scheme.width()
}

// Says whether the memory does not hold four masks.
pub(crate) fn is_short<R: Relation, S: Scheme>(
    relation: &R,
    scheme: &S,
    numbers: &[u16],
    coins: &[u8],
) -> bool
    ensures { result ≡ (nat_lt (length numbers.now) (4 * mask_size (R.Relation.meaning relation.now) (S.Scheme.meaning scheme.now)) || nat_lt (length coins.now) (4 * coins_size (R.Relation.meaning relation.now) (S.Scheme.meaning scheme.now))) }
{
    numbers.len() < 4 * mask_size(relation) || coins.len() < 4 * coins_size(scheme)
}

// The mask in a line's part.
#[tactic(auto, using(crate::proofs::Room::row_fits))]
pub(crate) fn mask_on<'a, R: Relation, S: Scheme>(
    relation: &R,
    scheme: &S,
    numbers: &'a [u16],
    coins: &'a [u8],
    line: usize,
) -> Mask<'a>
    requires line_in_range { line < 4 }
    requires numbers_suffice { 4 * mask_size (R.Relation.meaning relation.now) (S.Scheme.meaning scheme.now) ≤ length numbers.now }
    requires coins_suffice { 4 * coins_size (R.Relation.meaning relation.now) (S.Scheme.meaning scheme.now) ≤ length coins.now }
    ensures { mask_in result ≡ mask_on_line (R.Relation.meaning relation.now) (S.Scheme.meaning scheme.now) numbers.now coins.now line }
{
    let entries = relation.layer_count() * relation.layer_len();
    let permutations_start = line * mask_size(relation);
    let layers_start = permutations_start + entries;
    let free_start = layers_start + entries;
    let coins_count = coins_size(scheme);
    let coins_start = line * coins_count;
    Mask {
        permutations: &numbers[permutations_start..layers_start],
        layers: &numbers[layers_start..free_start],
        free: &numbers[free_start..free_start + relation.free_len()],
        coins: &coins[coins_start..coins_start + coins_count],
    }
}
