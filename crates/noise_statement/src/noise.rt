// Noise statements, modulo 2: a key is a list of zeros and ones such that target − A·key has a stated number of ones.
ghost use Rattle.std.specs.Prelude.{◌≡◌, true, [], ◌∷◌, length};
ghost use Rattle.refusals.specs.Answers.{Answered};
ghost use Rattle.vectors.specs.Lists.{same};
ghost use Rattle.vectors.specs.Residues.{below, plus};
ghost use Rattle.relation_laws.specs.Statements.{noise_fault};
ghost use Rattle.relation_laws.specs.Noise.{noise as noise_relation, noise_free, noise_of};
ghost use Rattle.relation_laws.proofs.NoiseLaws.{noise_lawful};
ghost use Rattle.statements.specs.Given.{statement};
ghost use Rattle.statements.specs.Made.{Faultless, none_from_faultless};

use refusals::refusal::Refusal;
use relation::Relation;
use statements::bits::{narrow, widen};
use statements::checked::Checked;
use statements::counts::{count_of, has_ones};
use statements::given::Given;
use vectors::modular::{add, all_below, subtract};
use vectors::zeroing::ZeroOnDrop;

#[derive(Clone, Copy)]
pub struct Noise<'a> {
    checked: Checked<'a>,
    ghost made: { Faultless (noise_fault (statement checked.given)) },
    ghost modulus: { checked.given.modulus ≡ 2 },
}

impl<'a> Noise<'a> {
    // The smallest statement, which is there to be set.
    pub fn smallest() -> Noise<'a>
        ensures { statement result.checked.given ≡ record { q = 2; rows = 1; columns = 1; bound = 1; matrix = 0 ∷ []; target = 0 ∷ [] } }
    {
        Noise::new(Given::smallest(2)).unwrap()
    }

    pub fn new(given: Given<'a>) -> Result<Noise<'a>, Refusal>
        ensures { Answered (noise_fault (statement given.entry)) result (λ noise. statement noise.checked.given ≡ statement given.entry) (Unit {0}) }
    {
        let checked = Checked::new(given, 2..=2, 1..=given.rows)?;
        Ok(Noise { checked })
    }

    // Takes the statement, or refuses it and stays as it was.
    pub fn set(&mut self, given: Given<'a>) -> Result<(), Refusal>
        ensures { Answered (noise_fault (statement given.entry)) result (λ _. statement self.new.checked.given ≡ statement given.entry) (self.new ≡ self.old) }
    {
        *self = Noise::new(given)?;
        Ok(())
    }

    // Writes target − A·key; modulo 2 this difference is a sum.
    fn write_noise(&self, key: &[u16], noise: &mut [u16])
        requires { (length key.now ≡ self.now.checked.given.columns) × (length noise.old ≡ self.now.checked.given.rows) }
        ensures { noise.new ≡ noise_of (statement self.now.checked.given) key.now }
    {
        self.checked.multiply(key, noise);
        add(noise, self.checked.target(), self.checked.modulus());
    }

    // Writes A·free + layer.
    fn write_image(&self, layer: &[u16], free: &[u16], image: &mut [u16])
        requires layer { (length layer.now ≡ self.now.checked.given.rows) × (below self.now.checked.given.modulus layer.now ≡ true) }
        requires free { length free.now ≡ self.now.checked.given.columns }
        requires image { length image.old ≡ self.now.checked.given.rows }
        ensures { image.new ≡ plus self.now.checked.given.modulus (noise_free (statement self.now.checked.given) free.now) layer.now }
    {
        self.checked.multiply(free, image);
        add(image, layer, self.checked.modulus());
    }

    // Says whether A·free + layer is the target, by A·free and target − layer: so it stops at the first row that differs.
    fn image_is_target(&self, layer: &[u16], free: &[u16]) -> bool
        requires layer { (length layer.now ≡ self.now.checked.given.rows) × (below self.now.checked.given.modulus layer.now ≡ true) }
        requires free { length free.now ≡ self.now.checked.given.columns }
        ensures { result ≡ same (plus self.now.checked.given.modulus (noise_free (statement self.now.checked.given) free.now) layer.now) self.now.checked.given.target.now }
    {
        let mut buffer = [0; 128];
        let guard = ZeroOnDrop { area: &mut buffer };
        let difference = &mut guard.area[0..self.checked.rows()];
        difference.copy_from_slice(self.checked.target());
        subtract(difference, layer, self.checked.modulus());
        self.checked.multiplies_to(free, difference)
    }
}

impl<'a> Relation for Noise<'a> {
    type Entry = u8;

    ghost meaning = { λ x. noise_relation (statement x.checked.given) };

    ghost laws = { λ x. noise_lawful (statement x.checked.given) (none_from_faultless (noise_fault (statement x.checked.given)) x.made) };

    fn modulus(&self) -> u16 {
        self.checked.modulus()
    }

    fn key_len(&self) -> usize {
        self.checked.columns()
    }

    fn layer_count(&self) -> usize {
        1
    }

    fn layer_len(&self) -> usize {
        self.checked.rows()
    }

    fn free_len(&self) -> usize {
        self.checked.columns()
    }

    fn image_len(&self) -> usize {
        self.checked.rows()
    }

    fn shape(&self, j: usize, layer: &[u16]) -> Result<bool, Refusal> {
        if j >= 1 || !self.checked.whole(layer, self.checked.rows(), &[], 0) {
            return Err(Refusal::RelationArgument);
        }
        Ok(has_ones(layer, self.checked.bound()))
    }

    fn image(&self, layers: &[u16], free: &[u16], out: &mut [u16]) -> Result<(), Refusal> {
        let rows = self.checked.rows();
        let columns = self.checked.columns();
        if out.len() != rows || !self.checked.whole(layers, rows, free, columns) {
            return Err(Refusal::RelationArgument);
        }
        self.write_image(layers, free, out);
        Ok(())
    }

    fn target(&self, out: &mut [u16]) -> Result<(), Refusal> {
        self.checked.write_target(out)
    }

    fn split(&self, key: &[u8], layers: &mut [u16], free: &mut [u16]) -> Result<(), Refusal> {
        let rows = self.checked.rows();
        let columns = self.checked.columns();
        if layers.len() != rows || free.len() != columns {
            return Err(Refusal::RelationArgument);
        }
        if key.len() != columns {
            return Err(Refusal::KeyLength);
        }
        let mut key_buffer = [0; 256];
        let key_guard = ZeroOnDrop {
            area: &mut key_buffer,
        };
        let numbers = &mut key_guard.area[0..columns];
        widen(key, numbers);
        if !all_below(numbers, 2) {
            return Err(Refusal::KeyEntryOutOfRange);
        }
        let mut noise_buffer = [0; 128];
        let noise_guard = ZeroOnDrop {
            area: &mut noise_buffer,
        };
        let noise = &mut noise_guard.area[0..rows];
        self.write_noise(numbers, noise);
        if count_of(noise, 1) != self.checked.bound() {
            return Err(Refusal::KeyWeight);
        }
        layers.copy_from_slice(noise);
        free.copy_from_slice(numbers);
        Ok(())
    }

    fn gather(&self, layers: &[u16], free: &[u16], key: &mut [u8]) -> Result<(), Refusal> {
        let rows = self.checked.rows();
        let columns = self.checked.columns();
        if key.len() != columns || !self.checked.whole(layers, rows, free, columns) {
            return Err(Refusal::RelationArgument);
        }
        if !has_ones(layers, self.checked.bound()) || !self.image_is_target(layers, free) {
            return Err(Refusal::NoExtractedKey);
        }
        narrow(free, key);
        Ok(())
    }
}
