// Vectors: one pass over an incoming one, the sum of products, the norm, and what is stored of a vector.
#![tactic(auto)]

ghost use Rattle.std.specs.Prelude.{◌≡◌, ◌&&◌, map, length};
ghost use Rattle.std.specs.Float.{binary32};
ghost use Rattle.std.specs.Float.Ieee.{div};
ghost use Rattle.vector.specs.Vector.{finite, all_finite, dot, Norm, Normalized};

use square_root::sqrt;

// What one pass over a vector tells: whether every component is finite, and the sum of the squares. No Option: the sum is that of the squares where a
// component is not finite too.
#[derive(Clone, Copy)]
pub struct Scanned {
    pub finite: bool,
    pub squares: f32,
}

// Whether four numbers are all finite.
fn all_finite(a: f32, b: f32, c: f32, d: f32) -> bool
    ensures { result ≡ (finite a && (finite b && (finite c && finite d))) }
{
    a.is_finite() & (b.is_finite() & (c.is_finite() & d.is_finite()))
}

// Goes once over the components, to the end whatever they are, four a turn while there are four; the squares are summed from left to right.
pub fn scan(v: &[f32]) -> Scanned
    ensures finite_value { result.finite ≡ all_finite v.now }
    ensures squares_value { result.squares ≡ dot v.now v.now }
{
    let mut finite = true;
    let mut squares = 0.0;
    let mut seen = 0;
    // By hand: a turn takes four components or one.
    while seen < v.len() {
        let a = v[seen];
        if 4 <= v.len() - seen {
            let b = v[seen + 1];
            let c = v[seen + 2];
            let d = v[seen + 3];
            finite &= all_finite(a, b, c, d);
            squares = squares + a * a + b * b + c * c + d * d;
            seen += 4;
        } else {
            finite &= a.is_finite();
            squares += a * a;
            seen += 1;
        }
    }
    Scanned { finite, squares }
}

// The sum of products, left to right; it ends with the shorter vector.
pub fn dot(a: &[f32], b: &[f32]) -> f32
    ensures { result ≡ dot a.now b.now }
{
    let n = a.len().min(b.len());
    let mut sum = 0.0;
    for i in 0..n {
        sum += a[i] * b[i];
    }
    sum
}

// The norm: the root of the sum of squares.
pub fn norm(v: &[f32]) -> f32
    ensures { Norm v.now result }
{
    sqrt(dot(v, v))
}

fn divide_into(v: &[f32], n: f32, out: &mut [f32])
    requires { length out.old ≡ length v.now }
    ensures { out.new ≡ map (λ x. div binary32 x n) v.now }
{
    for (i, &x) in v.iter().enumerate() {
        out[i] = x / n;
    }
}

// By hand: the library's copy of a length that is not constant calls C's memmove, which the archive does not ask of its callers.
fn copy_into(v: &[f32], out: &mut [f32])
    requires { length out.old ≡ length v.now }
    ensures { out.new ≡ v.now }
{
    for (i, &x) in v.iter().enumerate() {
        out[i] = x;
    }
}

// Writes to `out` what is stored of v, the sum of whose squares is `squares`: a norm above 1e-10
// divides each component.
pub fn normalize(v: &[f32], squares: f32, out: &mut [f32])
    requires { length out.old ≡ length v.now }
    ensures { Normalized squares v.now out.new }
{
    let n = sqrt(squares);
    if n > 1e-10 {
        divide_into(v, n, out);
    } else {
        copy_into(v, out);
    }
}
