// An axis of the values of a column, and a value's place on it.
ghost use Rattle.std.specs.Prelude.{◌≡◌, ◌≤◌, T, All, [], length, take};
ghost use Rattle.std.specs.Float.Ieee.Positive.{positive};
ghost use Rattle.chart.specs.Axis.{sort, thinned, axis, place};
ghost use Rattle.chart.specs.Steps.{reaches, OnAxis};

use arrayvec::ArrayVec;
use std::cmp::OrderedFloat;

// Values of a column: a build reads 1,024 at most, and memory is fixed.
pub(crate) type Values = ArrayVec<f64, 1024>;

// A column of a build: values above zero, 1,024 of them at most.
#[derive(Clone, Copy)]
pub(crate) struct Column<'a> {
    pub(crate) values: &'a [f64],
    ghost few: { length values.now ≤ 1024 },
    ghost above_zero: { All (λ x. T (positive x)) values.now },
}

impl Column<'_> {
    // Makes the axis of its values in a vector that is lent, so that a build moves none and its stack holds each once.
    pub(crate) fn make_axis(&self, made: &mut Values)
        requires { made.old.items ≡ [] }
        ensures { made.new.items ≡ axis self.now.values.now }
    {
        gather(made, self.values);
        put_in_order(made.as_mut_slice());
        let kept = thin_out(made.as_mut_slice());
        made.truncate(kept);
    }
}

// Takes the values, of one that comes again and again the first alone: of values that come in order a sort has each once. No axis is changed by it.
fn gather(gathered: &mut Values, values: &[f64])
    requires { (gathered.old.items ≡ []) × (length values.now ≤ 1024) × All (λ x. T (positive x)) values.now }
    ensures above_zero { All (λ x. T (positive x)) gathered.new.items }
    ensures same_axis { axis gathered.new.items ≡ axis values.now }
{
    for v in values {
        if !gathered.last().is_some_and(|last| *last == *v) {
            gathered.push(*v);
        }
    }
}

// Puts values in order. Above zero no two that differ test equal, so std's sort gives what the definition's insertion gives.
fn put_in_order(values: &mut [f64])
    requires { All (λ x. T (positive x)) values.old }
    ensures { values.new ≡ sort values.old }
{
    values.sort_unstable_by_key(|x| OrderedFloat(*x));
}

// Drops each of sorted values that is too near the last one kept, and returns how many are left.
fn thin_out(sorted: &mut [f64]) -> usize
    ensures { (take result sorted.new ≡ thinned sorted.old) × (result ≤ length sorted.old) }
{
    let Some(first) = sorted.first() else {
        return 0;
    };
    let mut last = *first;
    let mut kept = 1;
    for i in 1..sorted.len() {
        let v = sorted[i];
        if !reaches(last, v) {
            sorted[kept] = v;
            kept += 1;
            last = v;
        }
    }
    kept
}

// Whether x is no more than a hair above a: then the first axis value that takes x, where there is one, is a or stands before it.
#[tactic(auto, unfolding(limits::proofs::Float::of_bits, limits::proofs::Float::round))]
fn reaches(a: f64, x: f64) -> bool
    ensures { result ≡ reaches a x }
{
    x - a < 1e-12
}

// The index of the first axis value that takes x, which has one.
pub(crate) fn place(axis: &[f64], x: f64) -> usize
    requires { OnAxis axis.now x }
    ensures { result ≡ place axis.now x }
{
    axis.partition_point(|a| !reaches(*a, x))
}
