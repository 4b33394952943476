// Short statements: a key is a list of whole numbers of bounded size with A·key = target.
ghost use Rattle.std.specs.Prelude.{◌≡◌, ◌*◌, ◌≤◌, [], ◌∷◌, length};
ghost use Rattle.refusals.specs.Answers.{Answered};
ghost use Rattle.relation.specs.Meaning.{shapes};
ghost use Rattle.vectors.specs.Lists.{same};
ghost use Rattle.relation_laws.specs.Statements.{short_fault};
ghost use Rattle.relation_laws.specs.Short.{digits, short as short_relation, short_product};
ghost use Rattle.relation_laws.proofs.ShortLaws.{short_lawful};
ghost use Rattle.statements.specs.Given.{statement};
ghost use Rattle.statements.specs.Made.{Faultless, none_from_faultless};

use crate::entries::{all_within, binary_digits, write_residues};
use crate::layers::{has_thirds, write_layers};
use crate::sums::{combine, gather_entries};
use refusals::refusal::Refusal;
use relation::Relation;
use statements::checked::Checked;
use statements::given::Given;
use vectors::zeroing::ZeroOnDrop;

#[derive(Clone, Copy)]
pub struct Short<'a> {
    checked: Checked<'a>,
    ghost made: { Faultless (short_fault (statement checked.given)) },
    ghost modulus: { 3 ≤ checked.given.modulus },
    ghost bound: { checked.given.bound ≤ 32767 },
}

impl<'a> Short<'a> {
    // The smallest statement, which is there to be set.
    pub fn smallest() -> Short<'a>
        ensures { statement result.checked.given ≡ record { q = 3; rows = 1; columns = 1; bound = 1; matrix = 0 ∷ []; target = 0 ∷ [] } }
    {
        Short::new(Given::smallest(3)).unwrap()
    }

    pub fn new(given: Given<'a>) -> Result<Short<'a>, Refusal>
        ensures { Answered (short_fault (statement given.entry)) result (λ short. statement short.checked.given ≡ statement given.entry) (Unit {0}) }
    {
        let checked = Checked::new(given, 3..=65535, 1..=32767)?;
        Ok(Short { checked })
    }

    // Takes the statement, or refuses it and stays as it was.
    pub fn set(&mut self, given: Given<'a>) -> Result<(), Refusal>
        ensures { Answered (short_fault (statement given.entry)) result (λ _. statement self.new.checked.given ≡ statement given.entry) (self.new ≡ self.old) }
    {
        *self = Short::new(given)?;
        Ok(())
    }

    // Says whether each layer has its shape.
    fn all_shaped(&self, layers: &[u16]) -> bool
        requires { length layers.now ≡ digits self.now.checked.given.bound * (3 * self.now.checked.given.columns) }
        ensures { result ≡ shapes (short_relation (statement self.now.checked.given)) (digits self.now.checked.given.bound) layers.now }
    {
        let columns = self.checked.columns();
        let layer_len = 3 * columns;
        // by index: a proof does not see that `chunks_exact` yields layer j as its item j
        for j in 0..binary_digits(self.checked.bound()) {
            let start = j * layer_len;
            let layer = &layers[start..start + layer_len];
            if !has_thirds(layer, columns, self.checked.modulus()) {
                return false;
            }
        }
        true
    }

    // Says whether the image of the layers is the target.
    fn image_is_target(&self, layers: &[u16]) -> bool
        requires { length layers.now ≡ digits self.now.checked.given.bound * (3 * self.now.checked.given.columns) }
        ensures { result ≡ same ((short_relation (statement self.now.checked.given)).image layers.now []) self.now.checked.given.target.now }
    {
        let mut buffer = [0; 256];
        let guard = ZeroOnDrop { area: &mut buffer };
        let sum = &mut guard.area[0..self.checked.columns()];
        combine(
            layers,
            binary_digits(self.checked.bound()),
            self.checked.modulus(),
            sum,
        );
        self.checked.has_product(sum)
    }

    // Says whether A·key is the target.
    fn product_is_target(&self, key: &[i32]) -> bool
        requires { length key.now ≡ self.now.checked.given.columns }
        ensures { result ≡ same (short_product (statement self.now.checked.given) key.now) self.now.checked.given.target.now }
    {
        let mut buffer = [0; 256];
        let guard = ZeroOnDrop { area: &mut buffer };
        let residues = &mut guard.area[0..self.checked.columns()];
        write_residues(key, self.checked.modulus(), residues);
        self.checked.has_product(residues)
    }
}

impl<'a> Relation for Short<'a> {
    type Entry = i32;

    ghost meaning = { λ x. short_relation (statement x.checked.given) };

    ghost laws = { λ x. short_lawful (statement x.checked.given) (none_from_faultless (short_fault (statement x.checked.given)) x.made) };

    fn modulus(&self) -> u16 {
        self.checked.modulus()
    }

    fn key_len(&self) -> usize {
        self.checked.columns()
    }

    fn layer_count(&self) -> usize {
        binary_digits(self.checked.bound())
    }

    fn layer_len(&self) -> usize {
        3 * self.checked.columns()
    }

    fn free_len(&self) -> usize {
        0
    }

    fn image_len(&self) -> usize {
        self.checked.rows()
    }

    fn shape(&self, j: usize, layer: &[u16]) -> Result<bool, Refusal> {
        let checked = self.checked;
        let columns = checked.columns();
        if j >= binary_digits(checked.bound()) || !checked.whole(layer, 3 * columns, &[], 0) {
            return Err(Refusal::RelationArgument);
        }
        Ok(has_thirds(layer, columns, checked.modulus()))
    }

    fn image(&self, layers: &[u16], free: &[u16], out: &mut [u16]) -> Result<(), Refusal> {
        let checked = self.checked;
        let layer_count = binary_digits(checked.bound());
        let layers_len = layer_count * (3 * checked.columns());
        if out.len() != checked.rows() || !checked.whole(layers, layers_len, free, 0) {
            return Err(Refusal::RelationArgument);
        }
        let mut buffer = [0; 256];
        let guard = ZeroOnDrop { area: &mut buffer };
        let sum = &mut guard.area[0..checked.columns()];
        combine(layers, layer_count, checked.modulus(), sum);
        checked.multiply(sum, out);
        Ok(())
    }

    fn target(&self, out: &mut [u16]) -> Result<(), Refusal> {
        self.checked.write_target(out)
    }

    fn split(&self, key: &[i32], layers: &mut [u16], free: &mut [u16]) -> Result<(), Refusal> {
        let checked = self.checked;
        let layer_count = binary_digits(checked.bound());
        if layers.len() != layer_count * (3 * checked.columns()) || free.len() != 0 {
            return Err(Refusal::RelationArgument);
        }
        if key.len() != checked.columns() {
            return Err(Refusal::KeyLength);
        }
        if !all_within(key, checked.bound()) {
            return Err(Refusal::KeyEntryOutOfRange);
        }
        if !self.product_is_target(key) {
            return Err(Refusal::KeyImage);
        }
        write_layers(key, layer_count, checked.modulus(), layers);
        Ok(())
    }

    fn gather(&self, layers: &[u16], free: &[u16], key: &mut [i32]) -> Result<(), Refusal> {
        let checked = self.checked;
        let layer_count = binary_digits(checked.bound());
        let layers_len = layer_count * (3 * checked.columns());
        if key.len() != checked.columns() || !checked.whole(layers, layers_len, free, 0) {
            return Err(Refusal::RelationArgument);
        }
        if !self.all_shaped(layers) || !self.image_is_target(layers) {
            return Err(Refusal::NoExtractedKey);
        }
        gather_entries(layers, layer_count, checked.modulus(), key);
        Ok(())
    }
}
