// Masks as the calls take them.
ghost use Rattle.std.specs.Prelude.{◌≡◌, ◌*◌, length};
ghost use Rattle.refusals.specs.Answers.{Answered};
ghost use Rattle.masks.specs.Mask.{WellFormed, coin_string, mask_fault, sized, sound};
ghost use Rattle.masks.specs.Held.{mask_in, mask_at, SamePlaces};
ghost use Rattle.masks.specs.Promises.{zeroed};

use commitment::scheme::Scheme;
use refusals::refusal::Refusal;
use relation::Relation;
use vectors::modular::all_below;
use vectors::testing::first_unpermuted;

// The prover's randomness of one identification.
#[derive(Clone, Copy)]
pub struct Mask<'a> {
    // P: a list of positions for each layer, one after another
    pub permutations: &'a [u16],
    // R
    pub layers: &'a [u16],
    // v
    pub free: &'a [u16],
    // three strings of the scheme's width, one after another
    pub coins: &'a [u8],
}

impl<'a> Mask<'a> {
    // Takes exactly the well-formed masks. Refuses a part of the wrong length, and then a list that is no permutation or a residue that is not below the modulus.
    pub fn check<R: Relation, S: Scheme>(self, relation: &R, scheme: &S) -> Result<(), Refusal>
        ensures { Answered (mask_fault (R.Relation.meaning relation.now) (S.Scheme.meaning scheme.now).width (mask_in self.entry)) result
            (λ _. WellFormed (R.Relation.meaning relation.now) (S.Scheme.meaning scheme.now).width (mask_in self.entry))
            (WellFormed (R.Relation.meaning relation.now) (S.Scheme.meaning scheme.now).width (mask_in self.entry) → ⊥) }
    {
        if !self.is_sized(relation, scheme) {
            return Err(Refusal::MaskPartLength);
        }
        if !self.is_sound(relation) {
            return Err(Refusal::MaskContent);
        }
        Ok(())
    }

    // The three strings of the coins of a scheme of this width.
    pub fn coin_strings(self, width: usize) -> (&'a [u8], &'a [u8], &'a [u8])
        requires { length self.coins.now ≡ 3 * width }
        ensures first { result.0.now ≡ coin_string width 0 self.entry.coins.now }
        ensures second { result.1.now ≡ coin_string width 1 self.entry.coins.now }
        ensures third { result.2.now ≡ coin_string width 2 self.entry.coins.now }
    {
        (
            &self.coins[0..width],
            &self.coins[width..2 * width],
            &self.coins[2 * width..3 * width],
        )
    }

    // Says whether each part has the length that the relation and the scheme ask for.
    pub(crate) fn is_sized<R: Relation, S: Scheme>(self, relation: &R, scheme: &S) -> bool
        ensures { result ≡ sized (R.Relation.meaning relation.now) (S.Scheme.meaning scheme.now).width (mask_in self.entry) }
    {
        let entries = relation.layout().size();
        self.permutations.len() == entries
            && self.layers.len() == entries
            && self.free.len() == relation.free_len()
            && self.coins.len() == 3 * scheme.width()
    }

    // Says whether each list of positions is a permutation and each residue is below the modulus; the width and the coins play no part.
    fn is_sound<R: Relation>(self, relation: &R) -> bool
        requires { length self.permutations.now ≡ (R.Relation.meaning relation.now).layer_count * (R.Relation.meaning relation.now).layer_len }
        ensures { result ≡ sound (R.Relation.meaning relation.now) 0 (mask_in self.entry) }
    {
        let q = relation.modulus() as usize;
        first_unpermuted(self.permutations, relation.layout()).is_none()
            && all_below(self.layers, q)
            && all_below(self.free, q)
    }
}

// The places that a mask is drawn into.
#[derive(Drop)]
pub struct MaskMut<'a> {
    pub permutations: &'a mut [u16],
    pub layers: &'a mut [u16],
    pub free: &'a mut [u16],
    pub coins: &'a mut [u8],
}

impl MaskMut<'_> {
    // The mask that lies at these places.
    pub fn as_mask(&self) -> Mask<'_>
        ensures { mask_in result ≡ mask_at self.now }
    {
        Mask {
            permutations: self.permutations,
            layers: self.layers,
            free: self.free,
            coins: self.coins,
        }
    }

    pub(crate) fn zero(&mut self)
        ensures zeroed { mask_at self.new ≡ zeroed (mask_at self.old) }
        ensures places { SamePlaces self.old self.new }
    {
        self.permutations.fill(0);
        self.layers.fill(0);
        self.free.fill(0);
        self.coins.fill(0);
    }
}
