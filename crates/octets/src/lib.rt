// Unsigned numbers of 8 to 64 bits at a place of a slice, in both octet orders, and comparisons of parts of slices.
//
// Every function is total: an octet past the end of a slice reads as 0, and one written there is dropped. So a caller has no
// fact to show. A caller that has tested the length first pays for no second test: the compiler folds them.
#![tactic(auto)]

ghost use Rattle.std.specs.Prelude.{◌+◌, ◌<◌, ◌≤◌, ◌≡◌, length, leb, take, drop};
ghost use Rattle.octets.specs.Octets.{octets_at, le, be, put, le_bytes, be_bytes, all_zero, same_octets};

use number::Number;

mod number;

// The octet at a place.
pub fn get_u8(s: &[u8], at: usize) -> u8
    ensures { result ≡ le (octets_at s.now at 1) }
{
    if at < s.len() { s[at] } else { 0 }
}

// Puts an octet at a place.
pub fn put_u8(d: &mut [u8], at: usize, v: u8)
    ensures { d.new ≡ put d.old at (le_bytes 1 v) }
{
    if at < d.len() {
        d[at] = v;
    }
}

// ---- numbers. One of four or eight octets that all lie inside is read and written with one test of the length; the compiler makes one
// load or store of it. What is left to do for one that the end cuts is never compiled into a caller, so that callers stay small.

// Whether n octets from a place on lie inside a slice of so many.
fn lies_inside(len: usize, at: usize, n: usize) -> bool
    ensures { result ≡ leb (at + n) len }
{
    at <= len && n <= len - at
}

// The number at a place, least significant octet first.
pub fn get_le<T: Number>(s: &[u8], at: usize) -> T
    ensures { T.value result ≡ le (octets_at s.now at T.width) }
{
    T::get(s, at)
}

// The number at a place, most significant octet first.
pub fn get_be<T: Number>(s: &[u8], at: usize) -> T
    ensures { T.value result ≡ be (octets_at s.now at T.width) }
{
    T::get(s, at).turned()
}

// Puts a number at a place, least significant octet first.
pub fn put_le<T: Number>(d: &mut [u8], at: usize, v: T)
    ensures { d.new ≡ put d.old at (le_bytes T.width (T.value v)) }
{
    if lies_inside(d.len(), at, T::width()) {
        v.store(d, at);
    } else {
        put_cut(d, at, v);
    }
}

// The same of a number that the end cuts.
#[inline(never)]
fn put_cut<T: Number>(d: &mut [u8], at: usize, v: T)
    ensures { d.new ≡ put d.old at (le_bytes T.width (T.value v)) }
{
    let mut all = [0; 8];
    v.store(&mut all, 0);
    put_octets(d, at, &all[..T::width()]);
}

// Puts a number at a place, most significant octet first.
pub fn put_be<T: Number>(d: &mut [u8], at: usize, v: T)
    ensures { d.new ≡ put d.old at (be_bytes T.width (T.value v)) }
{
    put_le(d, at, v.turned());
}

// ---- arrays and parts

// The octets at a place, as an array.
pub fn array_at<const N: usize>(s: &[u8], at: usize) -> [u8; N]
    ensures { result ≡ octets_at s.now at N }
{
    if lies_inside(s.len(), at, N)
        && let Some(all) = s[at..at + N].as_array::<N>()
    {
        return *all;
    }
    cut_array(s, at)
}

// The same where the end cuts them.
#[inline(never)]
fn cut_array<const N: usize>(s: &[u8], at: usize) -> [u8; N]
    ensures { result ≡ octets_at s.now at N }
{
    let mut octets = [0; N];
    let inside = part(s, at, N);
    octets[..inside.len()].copy_from_slice(inside);
    octets
}

// Puts octets at a place.
pub fn put_octets(d: &mut [u8], at: usize, bytes: &[u8])
    ensures { d.new ≡ put d.old at bytes.now }
{
    if lies_inside(d.len(), at, bytes.len()) {
        d[at..at + bytes.len()].copy_from_slice(bytes);
    } else if at < d.len() {
        let n = d.len() - at;
        d[at..].copy_from_slice(&bytes[..n]);
    }
}

// Puts n zeros at a place.
pub fn put_zeros(d: &mut [u8], at: usize, n: usize)
    ensures { d.new ≡ put d.old at (le_bytes n 0) }
{
    if at < d.len() {
        let m = n.min(d.len() - at);
        d[at..at + m].fill(0);
    }
}

// ---- parts of slices

// The n octets of a place, so far as they lie inside.
fn part(s: &[u8], at: usize, n: usize) -> &[u8]
    ensures { result.now ≡ take n (drop at s.now) }
{
    let from = at.min(s.len());
    &s[from..from + n.min(s.len() - from)]
}

// Whether octets are all zero.
fn are_zero(octets: &[u8]) -> bool
    ensures { result ≡ all_zero octets.now }
{
    octets.iter().all(|octet| *octet == 0)
}

// Whether the n octets of s from at on are all zero.
pub fn is_zero(s: &[u8], at: usize, n: usize) -> bool
    ensures { result ≡ all_zero (octets_at s.now at n) }
{
    are_zero(part(s, at, n))
}

// The same of a long run: eight octets at a time as long as so many lie inside, then one by one.
pub fn is_zero_run(s: &[u8], at: usize, n: usize) -> bool
    ensures { result ≡ all_zero (octets_at s.now at n) }
{
    let (words, rest) = part(s, at, n).as_chunks::<8>();
    words.iter().all(|word| get_le::<u64>(&word[..], 0) == 0) & are_zero(rest)
}

// Whether the n octets of a from i on equal those of b from j on. Places and slices stay apart: it speaks of octets past the ends too,
// which no two parts of slices have.
pub fn same(a: &[u8], i: usize, b: &[u8], j: usize, n: usize) -> bool
    ensures { result ≡ same_octets (octets_at a.now i n) (octets_at b.now j n) }
{
    let x = part(a, i, n);
    let y = part(b, j, n);
    let k = x.len().min(y.len());
    if &x[..k] != &y[..k] {
        return false;
    }
    are_zero(&x[k..]) & are_zero(&y[k..])
}
