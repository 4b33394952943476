// Drawing permutations: the numbers from 0 on, shuffled by exchanges.
ghost use Rattle.std.specs.Prelude.{◌≡◌, ◌*◌, ◌<◌, ◌≤◌, length};
ghost use Rattle.std.specs.List.{range_with_len};
ghost use Rattle.masks.specs.Draw.{draw_permutation, draw_permutations};
ghost use Rattle.masks.specs.Sources.{written, draw_exchange};

use crate::source::Source;
use std::ops::Range;
use vectors::layout::Layout;

fn count_up(positions: &mut [u16])
    requires { length positions.old ≤ 768 }
    ensures { positions.new ≡ range_with_len 0 (length positions.old) }
{
    for (i, position) in positions.iter_mut().enumerate() {
        *position = i as u16;
    }
}

// Draws a place up to i and exchanges it with place i.
fn exchange_with(source: &mut Source, positions: &mut [u16], i: usize) -> Option<()>
    requires place { i < length positions.old }
    requires short { i < 768 }
    ensures { draw_exchange i positions.old source.old.left.now ≡ written result positions.new source.new.left.now }
{
    let place = source.number_below((i + 1) as u16)?;
    positions.swap(place as usize, i);
    Some(())
}

// Draws one permutation. None where the bytes run out.
pub fn draw_permutation(source: &mut Source, positions: &mut [u16]) -> Option<()>
    requires { length positions.old ≤ 768 }
    ensures { draw_permutation (length positions.old) source.old.left.now ≡ written result positions.new source.new.left.now }
{
    count_up(positions);
    // by place: each exchange is between place i and a lower one
    for i in (1..positions.len()).rev() {
        exchange_with(source, positions, i)?;
    }
    Some(())
}

// Draws a permutation for each layer. None where the bytes run out.
pub(crate) fn draw_permutations(
    source: &mut Source,
    layout: Layout,
    positions: &mut [u16],
) -> Option<()>
    requires whole { length positions.old ≡ layout.layer_count * layout.layer_len }
    requires short { layout.layer_len ≤ 768 }
    ensures { draw_permutations layout.layer_len layout.layer_count source.old.left.now ≡ written result positions.new source.new.left.now }
{
    // by the layer's number: of the chunks of `chunks_exact_mut` a proof knows only the length
    for j in 0..layout.layer_count {
        let Range { start, end } = layout.places(j);
        draw_permutation(source, &mut positions[start..end])?;
    }
    Some(())
}
