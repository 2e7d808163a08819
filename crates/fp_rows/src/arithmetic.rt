ghost use Rattle.std.specs.Prelude.{◌≡◌, ◌≢◌, ℕ, ◌+◌, ◌-◌, ◌*◌, ◌%◌, ◌<◌, ◌≤◌, length, map};
ghost use Rattle.group_table.specs.Prime.{prime_value};
ghost use Rattle.linear_algebra.specs.Rows.{entry, add_multiple, pivot, IsRow};

use group_table::Prime;

// A number below 2 M modulo M.
fn reduced<const M: u8>(x: u8) -> u8
    requires modulus { (0 < M) × (M ≤ 7) }
    requires below { x < 2 * M }
    ensures { result ≡ x % M }
{
    x.min(x.wrapping_sub(M))
}

// Adds src to dst modulo M.
#[tactic(auto, using(linear_algebra::proofs::RowLemmas::is_add_multiple))]
fn add_once<const M: u8>(dst: &mut [u8], src: &[u8])
    requires modulus { (0 < M) × (M ≤ 7) }
    requires dst_is { IsRow M (length dst.old) dst.old }
    requires src_is { IsRow M (length dst.old) src.now }
    ensures { dst.new ≡ add_multiple M 1 dst.old src.now }
{
    for (i, x) in dst.iter_mut().enumerate() {
        *x = reduced::<M>(*x + src[i]);
    }
}

// Subtracts src from dst modulo M.
#[tactic(auto, using(linear_algebra::proofs::RowLemmas::is_add_multiple))]
fn subtract_once<const M: u8>(dst: &mut [u8], src: &[u8])
    requires modulus { (0 < M) × (M ≤ 7) }
    requires dst_is { IsRow M (length dst.old) dst.old }
    requires src_is { IsRow M (length dst.old) src.now }
    ensures { dst.new ≡ add_multiple M (M - 1) dst.old src.now }
{
    for (i, x) in dst.iter_mut().enumerate() {
        *x = reduced::<M>(*x + (M - src[i]));
    }
}

// Adds c times src to dst modulo M.
#[tactic(auto, using(linear_algebra::proofs::RowLemmas::is_add_multiple))]
fn add_more<const M: u8>(c: u8, dst: &mut [u8], src: &[u8])
    requires modulus { M ≤ 7 }
    requires factor { c < M }
    requires dst_is { IsRow M (length dst.old) dst.old }
    requires src_is { IsRow M (length dst.old) src.now }
    ensures { dst.new ≡ add_multiple M c dst.old src.now }
{
    for (i, x) in dst.iter_mut().enumerate() {
        let sum = *x + c * src[i];
        *x = sum % M;
    }
}

// Adds c times src to dst modulo M, which is known when this is compiled; 1 and -1 without a division.
fn add_times_modulo<const M: u8>(c: u8, dst: &mut [u8], src: &[u8])
    requires modulus { M ≤ 7 }
    requires factor { c < M }
    requires dst_is { IsRow M (length dst.old) dst.old }
    requires src_is { IsRow M (length dst.old) src.now }
    ensures { dst.new ≡ add_multiple M c dst.old src.now }
{
    if c == 1 {
        add_once::<M>(dst, src);
    } else if c == M - 1 {
        subtract_once::<M>(dst, src);
    } else {
        add_more::<M>(c, dst, src);
    }
}

/// Adds c times src to dst, modulo p.
pub fn add_times(p: Prime, c: u8, dst: &mut [u8], src: &[u8])
    requires factor { c < prime_value p }
    requires dst_is { IsRow (prime_value p) (length dst.old) dst.old }
    requires src_is { IsRow (prime_value p) (length dst.old) src.now }
    ensures { dst.new ≡ add_multiple (prime_value p) c dst.old src.now }
{
    match p {
        Prime::P2 => add_times_modulo::<2>(c, dst, src),
        Prime::P3 => add_times_modulo::<3>(c, dst, src),
        Prime::P5 => add_times_modulo::<5>(c, dst, src),
        Prime::P7 => add_times_modulo::<7>(c, dst, src),
    }
}

/// The place of the first entry that is not 0, and the length where each is 0.
#[tactic(auto, using(crate::proofs::PivotPlaces::pivot_places))]
pub fn pivot_of(r: &[u8]) -> usize
    ensures { result ≡ pivot r.now }
{
    for (i, x) in r.iter().enumerate() {
        if *x != 0 {
            return i;
        }
    }
    r.len()
}

/// The inverse of a modulo p.
pub fn inverse(p: Prime, a: u8) -> u8
    requires below { a < prime_value p }
    requires not_zero { a ≢ 0 }
    ensures below { result < prime_value p }
    ensures inverse { result * a % prime_value p ≡ 1 }
{
    let table: [u8; 7] = match p {
        Prime::P2 => [0, 1, 0, 0, 0, 0, 0],
        Prime::P3 => [0, 1, 2, 0, 0, 0, 0],
        Prime::P5 => [0, 1, 3, 2, 4, 0, 0],
        Prime::P7 => [0, 1, 4, 5, 2, 3, 6],
    };
    table[a as usize]
}

/// Multiplies each entry by c, modulo p.
#[tactic(auto, using(linear_algebra::proofs::RowLemmas::is_scaled))]
pub fn scale(p: Prime, c: u8, r: &mut [u8])
    requires factor { c < prime_value p }
    requires row_is { IsRow (prime_value p) (length r.old) r.old }
    ensures { r.new ≡ map (λ x. c * x % prime_value p) r.old }
{
    let m = p.value();
    for x in r.iter_mut() {
        let product = c * *x;
        *x = product % m;
    }
}

/// The sum plus a times b, modulo p.
pub fn add_product(p: Prime, sum: u8, a: u8, b: u8) -> u8
    requires sum_is { sum < prime_value p }
    requires a_is { a < prime_value p }
    requires b_is { b < prime_value p }
    ensures below { result < prime_value p }
    ensures value { result ≡ (sum + a * b) % prime_value p }
{
    let m = p.value();
    let more = sum + a * b;
    more % m
}
