// Numbers copied one by one. std's `copy_from_slice` would be shorter; it calls memmove, which an archive for C would then need from outside.
ghost use Rattle.std.specs.Prelude.{◌≡◌, length};

pub fn copy<T: Copy>(to: &mut [T], from: &[T])
    requires { length to.old ≡ length from.now }
    ensures { to.new ≡ from.now }
{
    for i in 0..from.len() {
        to[i] = from[i];
    }
}
