// Prints what the leaves give for the records on standard input, a line each. A record has 40 bytes: what is asked, a count, a second count, a byte unused, and
// nine numbers of four bytes, low byte first. The records and the lines that they must give are made by tools/trials.c.
#![tactic(auto)]

ghost use Rattle.std.specs.Prelude.{◌+◌, ◌*◌, ◌≤◌, ◌<◌, ◌≡◌, length};

use float_bits::{from_bits, to_bits};
use std::io;
use std::io::Read;

// Number i of a record.
fn number(r: &[u8], i: usize) -> u32
    requires r_len { length r.now ≡ 40 }
    requires i_bound { i < 9 }
{
    let at = 4 * i + 4;
    u32::from_le_bytes([r[at], r[at + 1], r[at + 2], r[at + 3]])
}

// The number of eight bytes that are number i and the next one.
fn long(r: &[u8], i: usize) -> u64
    requires r_len { length r.now ≡ 40 }
    requires i_bound { i < 8 }
{
    number(r, i) as u64 + 4294967296 * number(r, i + 1) as u64
}

// A byte of a record, at most `most`.
fn byte(r: &[u8], at: usize, most: usize) -> usize
    requires r_len { length r.now ≡ 40 }
    requires at_bound { at < 40 }
    ensures { result ≤ most }
{
    (r[at] as usize).min(most)
}

// The count of a record, at most `most`.
fn count(r: &[u8], most: usize) -> usize
    requires { length r.now ≡ 40 }
    ensures { result ≤ most }
{
    byte(r, 1, most)
}

// Four floats from number i on.
fn four(r: &[u8], i: usize) -> [f32; 4]
    requires r_len { length r.now ≡ 40 }
    requires i_bound { i < 6 }
{
    [
        from_bits(number(r, i)),
        from_bits(number(r, i + 1)),
        from_bits(number(r, i + 2)),
        from_bits(number(r, i + 3)),
    ]
}

fn print_number(rt: &impl Print, n: u32) -> io::Result<()> {
    println!(rt; "{n:08x}")
}

fn print_float(rt: &impl Print, x: f32) -> io::Result<()> {
    print_number(rt, to_bits(x))
}

// 1: the square root.
fn root(rt: &impl Print, r: &[u8]) -> io::Result<()>
    requires { length r.now ≡ 40 }
{
    print_float(rt, square_root::sqrt(from_bits(number(r, 0))))
}

// 2: the norm of a vector of `count` components.
fn norm(rt: &impl Print, r: &[u8]) -> io::Result<()>
    requires { length r.now ≡ 40 }
{
    let v = four(r, 0);
    let n = count(r, 4);
    print_float(rt, vector::norm(&v[..n]))
}

// 3: what is stored of a vector of four components.
fn stored(rt: &impl Print, r: &[u8]) -> io::Result<()>
    requires { length r.now ≡ 40 }
{
    let v = four(r, 0);
    let mut out = [0.0f32; 4];
    let scanned = vector::scan(&v);
    vector::normalize(&v, scanned.squares, &mut out);
    for x in out {
        print_float(rt, x)?;
    }
    Ok(())
}

// 4: the distance of two vectors of `count` components.
fn between(rt: &impl Print, r: &[u8]) -> io::Result<()>
    requires { length r.now ≡ 40 }
{
    let a = four(r, 0);
    let b = four(r, 4);
    let n = count(r, 4);
    print_float(rt, distance::cosine_distance_normalized(&a[..n], &b[..n]))
}

// 5: the key of a value, and the value back from it.
fn keys(rt: &impl Print, r: &[u8]) -> io::Result<()>
    requires { length r.now ≡ 40 }
{
    let key = total_order::key(from_bits(number(r, 0)));
    print_number(rt, key)?;
    print_float(rt, total_order::from_key(key))
}

// 6: the hash of a name of `count` bytes, whose first part has as many as the third byte says.
fn hash(rt: &impl Print, r: &[u8]) -> io::Result<()>
    requires { length r.now ≡ 40 }
{
    let n = count(r, 36);
    let middle = 4 + byte(r, 2, n);
    let end = 4 + n;
    let hash = label::hash_name(&r[4..middle], &r[middle..end]);
    println!(rt; "{hash:016x}")
}

// 9: the hash of `count` bytes after the first two numbers, from a start that these numbers are.
fn carried_on(rt: &impl Print, r: &[u8]) -> io::Result<()>
    requires { length r.now ≡ 40 }
{
    let start = long(r, 0);
    let end = 12 + count(r, 28);
    let hash = label::hash_label(start, &r[12..end]);
    println!(rt; "{hash:016x}")
}

// 7: the words of an empty filter with a hash inserted, and whether it denies another.
fn filter(rt: &impl Print, r: &[u8]) -> io::Result<()>
    requires { length r.now ≡ 40 }
{
    let hash = long(r, 0);
    let other = long(r, 2);
    let mut words = [0u64; 4];
    bloom::insert(&mut words, hash);
    for word in &words {
        print!(rt; "{word:016x}")?;
    }
    if bloom::may_contain(&words, other) {
        println!(rt; " kept")
    } else {
        println!(rt; " denied")
    }
}

// 8: the pass over a vector of `count` components: whether all are finite, and the sum of squares.
fn scanned(rt: &impl Print, r: &[u8]) -> io::Result<()>
    requires { length r.now ≡ 40 }
{
    let v = four(r, 0);
    let n = count(r, 4);
    let scanned = vector::scan(&v[..n]);
    if scanned.finite {
        print!(rt; "finite ")?;
    } else {
        print!(rt; "not finite ")?;
    }
    print_float(rt, scanned.squares)
}

fn answer(rt: &impl Print, r: &[u8]) -> io::Result<()>
    requires { length r.now ≡ 40 }
{
    match r[0] {
        1 => root(rt, r),
        2 => norm(rt, r),
        3 => stored(rt, r),
        4 => between(rt, r),
        5 => keys(rt, r),
        6 => hash(rt, r),
        7 => filter(rt, r),
        8 => scanned(rt, r),
        9 => carried_on(rt, r),
        _ => println!(rt; ""),
    }
}

fn answer_all(rt: &impl Print, records: &[u8]) -> io::Result<()> {
    let rest = records.len() % 40;
    for record in records[rest..].chunks_exact(40) {
        answer(rt, record)?;
    }
    Ok(())
}

fn main(rt: HostRuntime) -> io::Result<()> {
    let mut records = Vec::new(rt.alloc());
    rt.reader().take(65536).read_to_end(&mut records)?;
    answer_all(&rt, &records)
}
