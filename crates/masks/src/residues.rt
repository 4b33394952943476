// Drawing residues.
ghost use Rattle.std.specs.Prelude.{◌≡◌, ◌<◌, length};
ghost use Rattle.masks.specs.Draw.{draw_residues};
ghost use Rattle.masks.specs.Sources.{written};

use crate::source::Source;

// Fills all places with residues modulo q. None where the bytes run out.
pub fn draw_residues(source: &mut Source, q: u16, residues: &mut [u16]) -> Option<()>
    requires { 0 < q }
    ensures { draw_residues q (length residues.old) source.old.left.now ≡ written result residues.new source.new.left.now }
{
    for residue in residues.iter_mut() {
        *residue = source.number_below(q)?;
    }
    Some(())
}
