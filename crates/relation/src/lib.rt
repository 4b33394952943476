// What every relation between statements and keys offers.
#![tactic(auto)]

ghost use Rattle.std.specs.Prelude.{◌≡◌, length};
ghost use Rattle.refusals.specs.Answers.{Answered};
ghost use Rattle.relation.specs.Meaning.{RelationMeaning};
ghost use Rattle.relation.specs.Laws.{RelationLaws};
ghost use Rattle.relation.specs.Faults.{shape_fault, image_fault, target_fault, split_fault, gather_fault};

use refusals::refusal::Refusal;
use vectors::layout::Layout;

// A relation is one kind of statement with its keys (instance and witness). It splits a key into layers, whose entries may be
// shown in a rearranged order, and a free part. No call changes what it means; a refused call writes nothing.
// Calls take a relation and a scheme as two parameters: the relation is only read and the scheme is often changed, so that a struct of
// both would be made anew for each call.
pub trait Relation {
    // an entry of a key
    type Entry: Copy;

    ghost meaning: { Self → RelationMeaning Self.Entry };

    ghost laws: { (relation : Self) → RelationLaws (meaning relation) };

    // q: residues are the numbers below it.
    fn modulus(&self) -> u16
        ensures { result ≡ (meaning self.now).q };

    fn key_len(&self) -> usize
        ensures { result ≡ (meaning self.now).key_len };

    fn layer_count(&self) -> usize
        ensures { result ≡ (meaning self.now).layer_count };

    fn layer_len(&self) -> usize
        ensures { result ≡ (meaning self.now).layer_len };

    // The layers, one after another.
    fn layout(&self) -> Layout
        ensures { result ≡ record { layer_count = (meaning self.now).layer_count; layer_len = (meaning self.now).layer_len } }
    {
        Layout {
            layer_count: self.layer_count(),
            layer_len: self.layer_len(),
        }
    }

    fn free_len(&self) -> usize
        ensures { result ≡ (meaning self.now).free_len };

    fn image_len(&self) -> usize
        ensures { result ≡ (meaning self.now).image_len };

    // Says whether the layer has the entries of layer j.
    fn shape(&self, j: usize, layer: &[u16]) -> Result<bool, Refusal>
        ensures { Answered (shape_fault (meaning self.now) j layer.now) result (λ b. b ≡ (meaning self.now).shape j layer.now) (Unit {0}) };

    // Writes the image of all layers and a free part.
    fn image(&self, layers: &[u16], free: &[u16], out: &mut [u16]) -> Result<(), Refusal>
        ensures { Answered (image_fault (meaning self.now) layers.now free.now (length out.old)) result (λ _. out.new ≡ (meaning self.now).image layers.now free.now) (out.new ≡ out.old) };

    // Writes the image that the parts of a key have.
    fn target(&self, out: &mut [u16]) -> Result<(), Refusal>
        ensures { Answered (target_fault (meaning self.now) (length out.old)) result (λ _. out.new ≡ (meaning self.now).target) (out.new ≡ out.old) };

    // Writes the layers and the free part of a key of the statement.
    fn split(
        &self,
        key: &[Self::Entry],
        layers: &mut [u16],
        free: &mut [u16],
    ) -> Result<(), Refusal>
        ensures { Answered (split_fault (meaning self.now) key.now (length layers.old) (length free.old)) result (λ _. (layers.new ≡ (meaning self.now).split_layers key.now) × (free.new ≡ (meaning self.now).split_free key.now)) ((layers.new ≡ layers.old) × (free.new ≡ free.old)) };

    // Writes the key that layers and a free part make up, where they have every shape and the target as image.
    fn gather(&self, layers: &[u16], free: &[u16], key: &mut [Self::Entry]) -> Result<(), Refusal>
        ensures { Answered (gather_fault (meaning self.now) layers.now free.now (length key.old)) result (λ _. key.new ≡ (meaning self.now).gather layers.now free.now) (key.new ≡ key.old) };
}
