// What is done to slices of any elements.

#![tactic(auto)]

ghost use Rattle.std.specs.Prelude.{◌≡◌, length};

// The elements of one slice over those of another. A loop, and not the library's copy_from_slice, which is a
// call of C's memmove: the static libraries ask for memset and memcpy, and for nothing else, from outside.
pub fn copy<T: Copy>(to: &mut [T], from: &[T])
    requires { length from.now ≡ length to.old }
    ensures after { to.new ≡ from.now }
{
    for (i, x) in from.iter().enumerate() {
        to[i] = *x;
    }
}
