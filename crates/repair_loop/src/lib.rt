// Repair on a labelled mesh: the coordinates of the lent weights first, then the words that a raise reads and the preorders, then the raises: where the total
// is below 1 that of triangle 1, and the loop. All the time coordinates 0 and 1 are those of the weights: a raise moves the subtrees behind the sides that its
// triangle's walk crosses. The third is written at the end. The sum of the weights' absolute values is kept up to date, so that the raise that would break 9
// is not made.
#![tactic(auto)]

ghost use Rattle.std.specs.Prelude.{◌≡◌, List, false, ℕ, ◌+◌, ◌<◌, ◌≤◌, ℤ, pos, nat_abs, ◌-ℤ◌};
ghost use Rattle.definitions.specs.Lists.{total_abs};
ghost use Rattle.definitions.specs.Forward.{forward};
ghost use Rattle.definitions.specs.Repair.{limit, max_z, add_to};
ghost use Rattle.definitions.specs.Refusals.{row9};
ghost use Rattle.scratch_tables.specs.Tables.{tables_of};
ghost use Rattle.labels_tables.specs.Peeling.{peeling};
ghost use Rattle.labels_tables.specs.LabelledTables.{Peeled};
ghost use Rattle.repair_model.specs.Search.{raise_at};
ghost use Rattle.repair_model.specs.Ready.{Ready};
ghost use Rattle.repair_model.specs.LoopState.{Reached, Passed};
ghost use Rattle.repair_loop.specs.OneRaise.{SumPre, RaisePre, Attempted, LoopPre, ReadyPre, FirstPre};
ghost use Rattle.repair_loop.specs.Answer.{Halts, Ends};
ghost use Rattle.repair_loop.specs.Start.{StartPre};

use repair_search::Drawing;

// The next raise would break 9; so many raises have been made.
#[derive(Clone, Copy)]
pub struct Stopped {
    pub raises: usize,
}

// the sum of the absolute values once the weight of triangle t is raised by x
fn sum_after(weights: &[i64], t: usize, sum: u64, x: i64) -> u64
    requires { SumPre weights.now t sum x }
    ensures { result ≡ total_abs (add_to weights.now t x) }
{
    let w = weights[t - 1];
    sum - w.unsigned_abs() + (w + x).unsigned_abs()
}

// Triangle t is raised by x and the sum of the absolute values after it returned, if that stays within the limit.
fn try_raise(
    n: usize,
    weights: &mut [i64],
    coordinates: &mut [i64],
    scratch: &[i64],
    t: usize,
    sum: u64,
    x: i64,
) -> Option<u64>
    requires { RaisePre n weights.old coordinates.old scratch.now t sum x }
    ensures { Attempted n scratch.now weights.old coordinates.old weights.new coordinates.new t x result }
{
    let new = sum_after(weights, t, sum, x);
    if new > maps_limits::LIMIT {
        return None;
    }
    weights[t - 1] += x;
    repair_update::add_raise(n, coordinates, scratch, t, x);
    Some(new)
}

// Triangles below `full` are fully extended, and t has been raised: below what all are extended now.
fn extended_after(full: usize, t: usize) -> usize
    requires { (full ≤ t) × (t < 65536) }
    ensures { Passed full t result }
{
    if full == t { t + 1 } else { full }
}

// While some inner triangle is bad, the lowest-numbered one is raised. `raised` is 1 after the first raise, of triangle 1, and 0 without it. An extended
// triangle stays so; those that all are, up to the first that is not, are not looked at again. A search borrows the drawing anew, since a raise writes it.
fn raise_all(
    n: usize,
    weights: &mut [i64],
    coordinates: &mut [i64],
    scratch: &[i64],
    sum: u64,
    raised: usize,
) -> Result<usize, Stopped>
    requires { LoopPre n weights.old coordinates.old scratch.now sum raised }
    ensures { (ts ls : List ℕ) (lent : List ℤ) →
        Reached n ts ls lent weights.old coordinates.old scratch.now sum raised (raised + 1) →
        Halts n ts ls lent weights.new coordinates.new result }
{
    let triangles = 2 * n - 4;
    let mut total = sum;
    let mut count = raised;
    let mut full = raised + 1;
    let mut next = Drawing::new(coordinates, scratch, triangles).first_bad(full);
    while let Some(t) = next {
        let x = Drawing::new(coordinates, scratch, triangles).raise_at(t);
        let Some(tried) = try_raise(n, weights, coordinates, scratch, t, total, x) else {
            return Err(Stopped { raises: count });
        };
        total = tried;
        count += 1;
        next = Drawing::new(coordinates, scratch, triangles).next_bad(full, t);
        full = extended_after(full, t);
    }
    Ok(count)
}

// what triangle 1 is raised by where the total is below 1: the larger of its own raise and what the total lacks to 1
fn first_raise(drawing: Drawing, total: i64) -> i64
    requires { (1 < drawing.triangles) × (nat_abs total ≤ limit) }
    ensures { result ≡ max_z (raise_at (tables_of drawing.entry.scratch.now) drawing.entry.coordinates.now 1) (pos 1 -ℤ total) }
{
    let own = drawing.raise_at(1);
    own.max(1 - total)
}

// Where the total is below 1, triangle 1 is raised first; after that the loop runs.
fn make_first_raise(
    n: usize,
    weights: &mut [i64],
    coordinates: &mut [i64],
    scratch: &[i64],
    sum: u64,
    total: i64,
) -> Result<usize, Stopped>
    requires { FirstPre n weights.old coordinates.old scratch.now sum total }
    ensures { (ts ls : List ℕ) → Ready n ts ls scratch.now →
        coordinates.old ≡ forward n ts ls weights.old →
        Halts n ts ls weights.old weights.new coordinates.new result }
{
    let x = first_raise(Drawing::new(coordinates, scratch, 2 * n - 4), total);
    let Some(tried) = try_raise(n, weights, coordinates, scratch, 1, sum, x) else {
        return Err(Stopped { raises: 0 });
    };
    raise_all(n, weights, coordinates, scratch, tried, 1)
}

// The least total with which no first raise is due.
const LEAST_TOTAL: i64 = 1;

// All raises. The total is coordinate 0 of v0.
fn raise_from_start(
    n: usize,
    weights: &mut [i64],
    coordinates: &mut [i64],
    scratch: &[i64],
    sum: u64,
    v0: usize,
) -> Result<usize, Stopped>
    requires { ReadyPre n weights.old coordinates.old scratch.now sum × (v0 ≡ (peeling scratch.now).origin 0) }
    ensures { (ts ls : List ℕ) → Ready n ts ls scratch.now →
        coordinates.old ≡ forward n ts ls weights.old →
        Halts n ts ls weights.old weights.new coordinates.new result }
{
    let total = maps_limits::coordinate_at(coordinates, 0, v0);
    if LEAST_TOTAL <= total {
        raise_all(n, weights, coordinates, scratch, sum, 0)
    } else {
        make_first_raise(n, weights, coordinates, scratch, sum, total)
    }
}

// All raises, and the third coordinates written.
fn raise_and_draw(
    n: usize,
    weights: &mut [i64],
    coordinates: &mut [i64],
    scratch: &[i64],
    sum: u64,
) -> Result<usize, Stopped>
    requires { ReadyPre n weights.old coordinates.old scratch.now sum }
    ensures { (ts ls : List ℕ) → Ready n ts ls scratch.now →
        coordinates.old ≡ forward n ts ls weights.old →
        Ends n ts ls weights.old weights.new coordinates.new result }
{
    let v0 = labels_tables::origin(scratch, 0);
    let ended = raise_from_start(n, weights, coordinates, scratch, sum, v0);
    maps_forward::write_thirds(n, coordinates, v0);
    ended
}

// the sum of the absolute values of weights that 9 lets through
#[tactic(auto, using(crate::specs::Start::summed_is, crate::specs::Start::summed_fits))]
fn sum_of_absolutes(weights: &[i64]) -> u64
    requires { row9 weights.now ≡ false }
    ensures { result ≡ total_abs weights.now }
{
    weights.iter().map(|w| w.unsigned_abs()).sum()
}

// The weights are repaired, and their coordinates written. What the lent coordinates hold before does not matter.
pub fn repair_labelled(
    n: usize,
    weights: &mut [i64],
    coordinates: &mut [i64],
    scratch: &mut [i64],
) -> Result<usize, Stopped>
    requires { StartPre n weights.old coordinates.old scratch.old }
    ensures { (ts ls : List ℕ) → Peeled n ts ls scratch.old →
        Ends n ts ls weights.old weights.new coordinates.new result }
{
    maps_forward::write_coordinates(n, weights, coordinates, scratch);
    repair_words::pack_words(n, scratch);
    repair_preorder::build_preorders(n, scratch);
    let sum = sum_of_absolutes(weights);
    raise_and_draw(n, weights, coordinates, scratch, sum)
}
