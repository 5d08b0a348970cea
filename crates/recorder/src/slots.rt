// Unused slots of an array set to zero, so that the array holds its used numbers as learning takes them.
ghost use Rattle.std.specs.Prelude.{◌≡◌, ◌-◌, ◌++◌, length, take, replicate};

// Sets all slots from `from` on to `zero`; none where `from` is past the end.
pub fn clear<T: Copy>(xs: &mut [T], from: usize, zero: T)
    ensures { xs.new ≡ take from xs.old ++ replicate (length xs.old - from) zero }
{
    for i in from..xs.len() {
        xs[i] = zero;
    }
}
