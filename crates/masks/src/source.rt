// Random bytes that are read from the front.
ghost use Rattle.std.specs.Prelude.{◌≡◌, ◌+◌, ◌<◌, ◌≤◌, length, IfSome};
ghost use Rattle.masks.specs.Draw.{accepts, draw_below, draw_bytes};
ghost use Rattle.masks.specs.Sources.{returned, written};

// What is left of the random bytes.
#[derive(Drop)]
pub struct Source<'a> {
    pub left: &'a [u8],
}

impl Source<'_> {
    // The first word that is accepted, modulo `bound`; words have two bytes, the high byte first. None where the bytes run out.
    pub fn number_below(&mut self, bound: u16) -> Option<u16>
        requires { 0 < bound }
        ensures drawn { draw_below bound self.old.left.now ≡ returned result self.new.left.now }
        ensures within { IfSome result (λ number. number < bound) }
    {
        let drawn = 'words: loop {
            let [high, low, rest @ ..] = self.left else {
                break 'words None;
            };
            self.left = rest;
            let word = u16::from_be_bytes([*high, *low]);
            if is_accepted(word, bound) {
                break 'words Some(word % bound);
            }
        };
        drawn
    }

    // Copies the next bytes into `out`. None where fewer are left.
    pub(crate) fn copy_bytes(&mut self, out: &mut [u8]) -> Option<()>
        ensures { draw_bytes (length out.old) self.old.left.now ≡ written result out.new self.new.left.now }
    {
        if self.left.len() < out.len() {
            return None;
        }
        let (taken, rest) = self.left.split_at(out.len());
        out.copy_from_slice(taken);
        self.left = rest;
        Some(())
    }

    // How many of the random bytes were read, of which this is what is left.
    pub(crate) fn count_read(&self, random: &[u8]) -> usize
        requires { length self.now.left.now ≤ length random.now }
        ensures { result + length self.now.left.now ≡ length random.now }
    {
        random.len() - self.left.len()
    }
}

// Words past the last whole multiple of the bound are left out, so that each number below the bound has equally many words.
fn is_accepted(word: u16, bound: u16) -> bool
    requires { 0 < bound }
    ensures { result ≡ accepts bound word }
{
    let bound = bound as u32;
    (word as u32) < bound * (65536 / bound)
}
