// Commitments to permutations and an image.
ghost use Rattle.std.specs.Prelude.{◌≡◌, ◌+◌, ◌*◌, ◌≤◌, true, ◌++◌, length};
ghost use Rattle.vectors.specs.Residues.{below, minus};
ghost use Rattle.vectors.specs.Words.{bytes};
ghost use Rattle.commitment.specs.Meaning.{Fresh};
ghost use Rattle.vectors.specs.Parts.{content};
ghost use Rattle.relation.specs.Meaning.{Layers, Free};
ghost use Rattle.openings.specs.Shown.{shown_image};

use commitment::message::commit;
use commitment::scheme::Scheme;
use relation::Relation;
use vectors::modular::subtract;
use vectors::part::Part;
use vectors::zeroing::ZeroOnDrop;

// Which image of layers and a free part is meant: the relation's, or that less the target.
#[derive(Clone, Copy, PartialEq, Eq, Debug)]
pub enum ImageKind {
    Whole,
    LessTarget,
}

// Commits to the permutations, then the image of the layers and the free part.
pub fn commit_with_image<R: Relation, S: Scheme>(
    relation: &R,
    scheme: &mut S,
    coins: &[u8],
    permutations: Part,
    layers: &[u16],
    free: &[u16],
    kind: ImageKind,
    out: &mut [u8],
)
    requires layers { Layers (R.Relation.meaning relation.now) layers.now }
    requires free { Free (R.Relation.meaning relation.now) free.now }
    requires coins { length coins.now ≡ (S.Scheme.meaning scheme.old).width }
    requires out { length out.old ≡ (S.Scheme.meaning scheme.old).width }
    requires limit { length (content permutations) + 2 * (R.Relation.meaning relation.now).image_len ≤ (S.Scheme.meaning scheme.old).limit }
    ensures value { out.new ≡ (S.Scheme.meaning scheme.old).value coins.now (content permutations.entry ++ bytes (shown_image (R.Relation.meaning relation.now) kind layers.now free.now)) }
    ensures fresh { Fresh (S.Scheme.meaning scheme.old) (S.Scheme.state scheme.new) }
    ensures kept { S.Scheme.meaning scheme.new ≡ S.Scheme.meaning scheme.old }
{
    let mut buffer = [0u16; 128];
    let guard = ZeroOnDrop { area: &mut buffer };
    let image = &mut guard.area[0..relation.image_len()];
    write_image(relation, layers, free, kind, image);
    let parts = [permutations, Part::Words(image)];
    commit(scheme, coins, &parts, out).unwrap();
}

fn write_image<R: Relation>(
    relation: &R,
    layers: &[u16],
    free: &[u16],
    kind: ImageKind,
    out: &mut [u16],
)
    requires layers { Layers (R.Relation.meaning relation.now) layers.now }
    requires free { Free (R.Relation.meaning relation.now) free.now }
    requires out { length out.old ≡ (R.Relation.meaning relation.now).image_len }
    ensures { out.new ≡ shown_image (R.Relation.meaning relation.now) kind layers.now free.now }
{
    relation.image(layers, free, out).unwrap();
    match kind {
        ImageKind::Whole => {}
        ImageKind::LessTarget => subtract_target(relation, out),
    }
}

fn subtract_target<R: Relation>(relation: &R, image: &mut [u16])
    requires image { length image.old ≡ (R.Relation.meaning relation.now).image_len }
    requires residues { below (R.Relation.meaning relation.now).q image.old ≡ true }
    ensures { image.new ≡ minus (R.Relation.meaning relation.now).q image.old (R.Relation.meaning relation.now).target }
{
    let mut buffer = [0u16; 128];
    let target = &mut buffer[0..image.len()];
    relation.target(target).unwrap();
    subtract(image, target, relation.modulus());
}
