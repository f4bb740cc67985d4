// Comparing lists place by place.

// Whether two lists are the same, as `same` says, but for the places from one to another.
pub fn same_but<T, S: Fn(&T, &T) -> bool>(a: &[T], b: &[T], from: usize, to: usize, same: S) -> bool
    requires { S.IsAlwaysCallable same }
{
    for (i, (x, y)) in a.iter().zip(b).enumerate() {
        if !same(x, y) & ((i < from) | (to <= i)) {
            return false;
        }
    }
    true
}

// Whether two floats have the same bits.
pub fn same_bits(x: &f32, y: &f32) -> bool {
    float_bits::to_bits(*x) == float_bits::to_bits(*y)
}
