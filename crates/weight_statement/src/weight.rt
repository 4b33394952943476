// Weight statements: a key is a list of zeros and ones, a stated number of them ones, with A·key = target.
ghost use Rattle.std.specs.Prelude.{◌≡◌, [], ◌∷◌, length};
ghost use Rattle.refusals.specs.Answers.{Answered};
ghost use Rattle.relation_laws.specs.Statements.{weight_fault};
ghost use Rattle.relation_laws.specs.Weight.{weight, weight_key_fault};
ghost use Rattle.relation_laws.proofs.WeightLaws.{weight_lawful};
ghost use Rattle.statements.specs.Given.{statement};
ghost use Rattle.statements.specs.Made.{Faultless, none_from_faultless};

use refusals::refusal::Refusal;
use relation::Relation;
use statements::bits::{narrow, widen};
use statements::checked::Checked;
use statements::counts::{count_of, has_ones};
use statements::given::Given;
use vectors::modular::all_below;
use vectors::zeroing::ZeroOnDrop;

#[derive(Clone, Copy)]
pub struct Weight<'a> {
    checked: Checked<'a>,
    ghost made: { Faultless (weight_fault (statement checked.given)) },
}

impl<'a> Weight<'a> {
    // The smallest statement, which is there to be set.
    pub fn smallest() -> Weight<'a>
        ensures { statement result.checked.given ≡ record { q = 2; rows = 1; columns = 1; bound = 1; matrix = 0 ∷ []; target = 0 ∷ [] } }
    {
        Weight::new(Given::smallest(2)).unwrap()
    }

    pub fn new(given: Given<'a>) -> Result<Weight<'a>, Refusal>
        ensures { Answered (weight_fault (statement given.entry)) result (λ weight. statement weight.checked.given ≡ statement given.entry) (Unit {0}) }
    {
        let checked = Checked::new(given, 2..=65535, 1..=given.columns)?;
        Ok(Weight { checked })
    }

    // Takes the statement, or refuses it and stays as it was.
    pub fn set(&mut self, given: Given<'a>) -> Result<(), Refusal>
        ensures { Answered (weight_fault (statement given.entry)) result (λ _. statement self.new.checked.given ≡ statement given.entry) (self.new ≡ self.old) }
    {
        *self = Weight::new(given)?;
        Ok(())
    }

    // Refuses what is no key of the statement, but for its length.
    fn check_key(&self, key: &[u16]) -> Result<(), Refusal>
        requires { length key.now ≡ self.now.checked.given.columns }
        ensures { Answered (weight_key_fault (statement self.now.checked.given) key.now) result (λ _. Unit {0}) (Unit {0}) }
    {
        if !all_below(key, 2) {
            return Err(Refusal::KeyEntryOutOfRange);
        }
        if count_of(key, 1) != self.checked.bound() {
            return Err(Refusal::KeyWeight);
        }
        if !self.checked.has_product(key) {
            return Err(Refusal::KeyImage);
        }
        Ok(())
    }
}

impl<'a> Relation for Weight<'a> {
    type Entry = u8;

    ghost meaning = { λ x. weight (statement x.checked.given) };

    ghost laws = { λ x. weight_lawful (statement x.checked.given) (none_from_faultless (weight_fault (statement x.checked.given)) x.made) };

    fn modulus(&self) -> u16 {
        self.checked.modulus()
    }

    fn key_len(&self) -> usize {
        self.checked.columns()
    }

    fn layer_count(&self) -> usize {
        1
    }

    fn layer_len(&self) -> usize {
        self.checked.columns()
    }

    fn free_len(&self) -> usize {
        0
    }

    fn image_len(&self) -> usize {
        self.checked.rows()
    }

    fn shape(&self, j: usize, layer: &[u16]) -> Result<bool, Refusal> {
        if j >= 1 || !self.checked.whole(layer, self.checked.columns(), &[], 0) {
            return Err(Refusal::RelationArgument);
        }
        Ok(has_ones(layer, self.checked.bound()))
    }

    fn image(&self, layers: &[u16], free: &[u16], out: &mut [u16]) -> Result<(), Refusal> {
        let checked = self.checked;
        if out.len() != checked.rows() || !checked.whole(layers, checked.columns(), free, 0) {
            return Err(Refusal::RelationArgument);
        }
        checked.multiply(layers, out);
        Ok(())
    }

    fn target(&self, out: &mut [u16]) -> Result<(), Refusal> {
        self.checked.write_target(out)
    }

    fn split(&self, key: &[u8], layers: &mut [u16], free: &mut [u16]) -> Result<(), Refusal> {
        let columns = self.checked.columns();
        if layers.len() != columns || free.len() != 0 {
            return Err(Refusal::RelationArgument);
        }
        if key.len() != columns {
            return Err(Refusal::KeyLength);
        }
        let mut buffer = [0; 256];
        let guard = ZeroOnDrop { area: &mut buffer };
        let numbers = &mut guard.area[0..columns];
        widen(key, numbers);
        self.check_key(numbers)?;
        layers.copy_from_slice(numbers);
        Ok(())
    }

    fn gather(&self, layers: &[u16], free: &[u16], key: &mut [u8]) -> Result<(), Refusal> {
        let checked = self.checked;
        if key.len() != checked.columns() || !checked.whole(layers, checked.columns(), free, 0) {
            return Err(Refusal::RelationArgument);
        }
        if !has_ones(layers, checked.bound()) || !checked.has_product(layers) {
            return Err(Refusal::NoExtractedKey);
        }
        narrow(layers, key);
        Ok(())
    }
}
