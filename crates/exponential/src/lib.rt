// exp and ln on f64, each equal to its definition of crate `elementary` for every input.
#![tactic(auto, using(floats::proofs::Exceptions::exceptional), unfolding(crate::proofs::Definitions::opened))]

ghost use Rattle.std.specs.Prelude.{◌≡◌, ◌-◌, ◌<◌, T, false, length, is_nan};
ghost use Rattle.std.specs.Int.Signed.{mag};
ghost use Rattle.elementary.specs.Tables.{entry_of, polynomial, factorial, odd_number, last_e, last_l, Ruled};
ghost use Rattle.std.specs.Float.Ieee.Positive.{positive};
ghost use Rattle.floats.specs.Operators.{◌≺◌};
ghost use Rattle.elementary.specs.Exp.{exp, floor, two_to, overflow_limit, underflow_limit};
ghost use Rattle.elementary.specs.Ln.{ln, ln_at, ln_from};
ghost use Rattle.elementary.specs.Steps.{in_exponent, Small};

use floats::FIELD;
use std::f64::consts::{LOG2_E, SQRT_2};

// fdlibm's split of ln 2: H + J.
const H: f64 = 0.693147180369123816490;

const J: f64 = 1.90821492927058770002e-10;

// The f64 nearest 1/i!.
const E: [f64; 14] = [
    1.0,
    1.0,
    0.5,
    0.16666666666666666,
    0.041666666666666664,
    0.008333333333333333,
    0.001388888888888889,
    0.0001984126984126984,
    2.48015873015873e-05,
    2.7557319223985893e-06,
    2.755731922398589e-07,
    2.505210838544172e-08,
    2.08767569878681e-09,
    1.6059043836821613e-10,
];

// The f64 nearest 1/(2i+1).
const L: [f64; 11] = [
    1.0,
    0.3333333333333333,
    0.2,
    0.14285714285714285,
    0.1111111111111111,
    0.09090909090909091,
    0.07692307692307693,
    0.06666666666666667,
    0.058823529411764705,
    0.05263157894736842,
    0.047619047619047616,
];

// Table E, and the promise that its rule holds over the whole array, which document 01 asks for by itself. Table L has another rule and another length: one
// function for both would have to be handed what it promises.
fn table_e() -> [f64; 14]
    ensures { Ruled factorial last_e result }
{
    E
}

// Table L, likewise.
fn table_l() -> [f64; 11]
    ensures { Ruled odd_number last_l result }
{
    L
}

// The sum over a table, from its last entry down.
fn horner(table: &[f64], x: f64) -> f64
    requires { 0 < length table.now }
    ensures { result ≡ polynomial (entry_of table.now) (length table.now - 1) x }
{
    let degree = table.len() - 1;
    let mut p = table[degree];
    for c in table[..degree].iter().rev() {
        p = p * x + *c;
    }
    p
}

// The largest whole number not above t, by a cut and a test. A cut of `t.floor()` was tried, and proved: of trays as docs/PERFORMANCE.md has them
// some got slower by 5.3 %, and none may by more than 5 %.
fn floor(t: f64) -> i64
    requires { Small t }
    ensures { result ≡ floor t }
{
    let q = std::num::truncating_f64_to_i64(t);
    if t < (q as f64) { q - 1 } else { q }
}

// 2^k: its exponent's field is k + 1023.
fn two_to(k: i64) -> f64
    requires { T (in_exponent k) }
    ensures { result ≡ two_to k }
{
    f64::from_bits(((k + 1023) as u64) * FIELD)
}

// exp from -745 to 709: p * 2^k, in two products where 2^k is no normal f64.
fn exp_between(v: f64) -> f64
    requires number { is_nan v ≡ false }
    requires high { overflow_limit ≺ v ≡ false }
    requires low { v ≺ underflow_limit ≡ false }
    ensures { result ≡ exp v }
{
    let k = floor(v * LOG2_E + 0.5);
    let f = k as f64;
    let r = (v - f * H) - f * J;
    let p = horner(&table_e(), r);
    if v < -708.0 {
        p * two_to(k + 200) * two_to(-200)
    } else {
        p * two_to(k)
    }
}

pub fn exp(v: f64) -> f64
    ensures { result ≡ exp v }
{
    if v.is_nan() {
        v
    } else if v > 709.0 {
        f64::INFINITY
    } else if v < -745.0 {
        0.0
    } else {
        exp_between(v)
    }
}

// ln of m * 2^e, with m at most 1.4142135623730951.
fn ln_at(m: f64, e: i64) -> f64
    requires { mag e < 5002 }
    ensures { result ≡ ln_at m e }
{
    let z = (m - 1.0) / (m + 1.0);
    let q = horner(&table_l(), z * z);
    let f = e as f64;
    f * H + ((2.0 * z) * q + f * J)
}

// ln of m * 2^e, with m in [1, 2).
fn ln_from(m: f64, e: i64) -> f64
    requires { mag e < 5000 }
    ensures { result ≡ ln_from m e }
{
    if m > SQRT_2 {
        ln_at(m * 0.5, e + 1)
    } else {
        ln_at(m, e)
    }
}

// ln of a finite float above 0: its digits with the point after the first one, and how far that moves it.
fn ln_above_zero(v: f64) -> f64
    requires { T (positive v) }
    ensures { result ≡ ln v }
{
    let p = floats::taken_apart(v);
    ln_from(
        f64::from_bits(p.digits + 1022 * FIELD),
        p.size as i64 - 1075,
    )
}

pub fn ln(v: f64) -> f64
    ensures { result ≡ ln v }
{
    if v.is_nan() {
        v
    } else if v < 0.0 {
        f64::NAN
    } else if v == 0.0 {
        f64::NEG_INFINITY
    } else if v == f64::INFINITY {
        v
    } else {
        ln_above_zero(v)
    }
}
