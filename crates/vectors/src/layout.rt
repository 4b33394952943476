// How layers lie in a list.
ghost use Rattle.std.specs.Prelude.{◌≡◌, ◌+◌, ◌*◌, ◌^◌, ◌<◌};

use std::ops::Range;

// So many layers of the same length, one after another.
#[derive(Clone, Copy, PartialEq, Eq, Debug)]
pub struct Layout {
    pub layer_count: usize,
    pub layer_len: usize,
}

impl Layout {
    // The length of all layers together.
    pub fn size(self) -> usize
        requires { self.layer_count * self.layer_len < 2 ^ 64 }
        ensures { result ≡ self.layer_count * self.layer_len }
    {
        self.layer_len * self.layer_count
    }

    // The places of layer j, counted from 0.
    pub fn places(self, j: usize) -> Range<usize>
        requires { (j < self.layer_count) × (self.layer_count * self.layer_len < 2 ^ 64) }
        ensures start { result.start ≡ j * self.layer_len }
        ensures end { result.end ≡ j * self.layer_len + self.layer_len }
    {
        let start = j * self.layer_len;
        start..start + self.layer_len
    }
}
