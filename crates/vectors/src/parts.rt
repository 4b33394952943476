// Parts of a lent slice: writing a list over one, and filling one with a value.
ghost use Rattle.std.specs.Prelude.{◌≡◌, ◌+◌, ◌≤◌, ◌++◌, length, replicate};
ghost use Rattle.vectors.specs.Over.{over};

// Writes `part` over the target, from place `at` on.
pub fn copy_part<T: Copy>(target: &mut [T], at: usize, part: &[T])
    requires { at + length part.now ≤ length target.old }
    ensures { target.new ≡ over target.old at part.now }
{
    target[at..at + part.len()].copy_from_slice(part);
}

// Writes `value` into `len` places of the target, from place `at` on.
pub fn fill_part<T: Copy>(target: &mut [T], at: usize, len: usize, value: T)
    requires { at + len ≤ length target.old }
    ensures { target.new ≡ over target.old at (replicate len value) }
{
    // `fill` asks for a clone that cannot fail, which `T: Copy` does not say
    for place in target[at..at + len].iter_mut() {
        *place = value;
    }
}

// Writes three lists over the target, one behind another, from place `at` on.
pub fn copy_three<T: Copy>(target: &mut [T], at: usize, first: &[T], second: &[T], third: &[T])
    requires { at + (length first.now + length second.now + length third.now) ≤ length target.old }
    ensures { target.new ≡ over target.old at (first.now ++ (second.now ++ third.now)) }
{
    copy_part(target, at, first);
    copy_part(target, at + first.len(), second);
    copy_part(target, at + first.len() + second.len(), third);
}
