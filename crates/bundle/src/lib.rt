// The batches of a day list: how many are needed, and the number of each collection's batch. There is no heap: the caller lends the place for the numbers.
// The terms of a collection come as a code, a number that is equal for two collections exactly where their terms are.
// What is asked of a number of collections and a ceiling (`InLimits`) is asked of two arguments that come from two places: a struct of both would be made for three calls.
#![tactic(auto)]

ghost use Rattle.std.specs.Prelude.{◌+◌, ◌≤◌, ◌≡◌, eqb, length};
ghost use Rattle.bundle.specs.Bundle.{ceil};
ghost use Rattle.bundle.specs.Labels.{need_of, size_of, labels_of, Marked};
ghost use Rattle.bundle.specs.Limits.{InLimits};

// A number of collections divided by the ceiling, rounded up.
#[tactic(auto, using(crate::proofs::Ceil::ceil_is))]
fn rounded_up(collections: u64, ceiling: u64) -> u64
    requires { InLimits collections ceiling }
    ensures { result ≡ ceil collections ceiling }
{
    collections.div_ceil(ceiling)
}

// Writes the batch's number for each collection of the terms of this code: `first`, and one more after every ceiling's worth. Answers the next free number.
// By index: of a zip of `iter_mut` a proof does not learn what was written. The search in `label` is over a lent slice, since a map wants a heap.
fn mark(codes: &[u64], code: u64, ceiling: u64, first: u64, labels: &mut [u64]) -> u64
    requires in_limits { InLimits (length codes.now) ceiling }
    requires first_in_bounds { first ≤ length codes.now }
    requires labels_len { length labels.old ≡ length codes.now }
    ensures value { result ≡ first + size_of eqb ceiling codes.now code }
    ensures marked { Marked ceiling first code codes.now labels.old labels.new (length codes.now) }
{
    let mut placed: u64 = 0;
    for (k, &c) in codes.iter().enumerate() {
        if c == code {
            labels[k] = first + placed / ceiling;
            placed += 1;
        }
    }
    first + rounded_up(placed, ceiling)
}

// Writes the number of each collection's batch, from 0, and answers how many batches are needed.
// Each terms is taken in order of first appearance; its collections, in list order, are cut after every ceiling's worth.
pub fn label(codes: &[u64], ceiling: u64, labels: &mut [u64]) -> u64
    requires in_limits { InLimits (length codes.now) ceiling }
    requires labels_len { length labels.old ≡ length codes.now }
    ensures value { result ≡ need_of ceiling codes.now }
    ensures labels_after { labels.new ≡ labels_of ceiling codes.now }
{
    let mut next = 0;
    // The inner search skips on by label, as the customer asks of this place.
    'outer: for (at, &code) in codes.iter().enumerate() {
        for &earlier in &codes[..at] {
            if earlier == code {
                continue 'outer;
            }
        }
        next = mark(codes, code, ceiling, next, labels);
    }
    next
}
