// A guard over a lent area: all of the area is zeros once the guard ends.
ghost use Rattle.std.specs.Prelude.{◌≡◌, length};
ghost use Rattle.vectors.specs.Over.{zeros};

// Made over an area by the struct literal; it zeroes the area where its scope ends, on every way out.
pub struct ZeroOnDrop<'a> {
    pub area: &'a mut [u16],
}

impl Drop for ZeroOnDrop<'_> {
    fn drop(self)
        ensures { self.exit.0.now ≡ zeros (length self.entry.area.now) }
    {
        self.area.fill(0);
        let ZeroOnDrop { area: _ } = self;
    }
}
