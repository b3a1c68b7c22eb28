// Forward on weights with a tolerance: a low and a high weight for each inner triangle in, the lowest and the highest of each coordinate out. The mesh is
// checked and labelled once for both lists; behind that the call is linear in n. Of scratch it uses the ten words a vertex that the labels stage uses.
#![tactic(auto)]

ghost use Rattle.std.specs.Prelude.{◌≡◌, ◌||◌, List, ℕ, length};
ghost use Rattle.definitions.specs.Mesh.{coordinates_length};
ghost use Rattle.definitions.specs.Forward.{forward};
ghost use Rattle.definitions.specs.Refusals.{row9, range_call, AcceptedWeights};
ghost use Rattle.labels_tables.specs.LabelledTables.{Peeled};
ghost use Rattle.mesh_answer.specs.Answer.{to_answer};
ghost use Rattle.range_call.specs.CallOutcomes.{RangeFits};

use labels_call::label_mesh;
use lent_slices::{Contents, check_sizes};
use maps_forward::write_coordinates;
use maps_limits::{low_above_high, past_limit};
use mesh_answer::Refusal;
use mesh_check::Mesh;
use scratch_tables::clear;

// 9, of either list
fn either_past_limit(lows: &[i64], highs: &[i64]) -> bool
    ensures { result ≡ (row9 lows.now || row9 highs.now) }
{
    past_limit(lows) || past_limit(highs)
}

// the coordinates of both lists, on a labelled mesh
fn write_both(
    n: usize,
    lows: &[i64],
    highs: &[i64],
    lowest: &mut [i64],
    highest: &mut [i64],
    scratch: &[i64],
)
    requires { ((ts : List ℕ) × (ls : List ℕ) × Peeled n ts ls scratch.now) × AcceptedWeights n lows.now × AcceptedWeights n highs.now
        × (length lowest.old ≡ coordinates_length n) × (length highest.old ≡ coordinates_length n) }
    ensures lowest { (ts ls : List ℕ) → Peeled n ts ls scratch.now → lowest.new ≡ forward n ts ls lows.now }
    ensures highest { (ts ls : List ℕ) → Peeled n ts ls scratch.now → highest.new ≡ forward n ts ls highs.now }
{
    write_coordinates(n, lows, lowest, scratch);
    write_coordinates(n, highs, highest, scratch);
}

// Rows 21, 29, 3 to 8 and 9, and the coordinates. Nothing is said of scratch: the call clears it.
fn run_range(
    mesh: &Mesh,
    lows: &[i64],
    highs: &[i64],
    lowest: &mut [i64],
    highest: &mut [i64],
    scratch: &mut [i64],
) -> Result<(), Refusal>
    requires { RangeFits mesh.now.n mesh.now.triangles.now lows.now highs.now lowest.old highest.old scratch.old }
    ensures answer { to_answer result ≡ (range_call mesh.now.n mesh.now.outer mesh.now.triangles.now lows.now highs.now
        lowest.old highest.old scratch.old).answer }
    ensures lowest { lowest.new ≡ (range_call mesh.now.n mesh.now.outer mesh.now.triangles.now lows.now highs.now
        lowest.old highest.old scratch.old).low_coordinates }
    ensures highest { highest.new ≡ (range_call mesh.now.n mesh.now.outer mesh.now.triangles.now lows.now highs.now
        lowest.old highest.old scratch.old).high_coordinates }
{
    if mesh.triangles.len() / 3 <= mesh.outer {
        return Err(Refusal::OuterTriangle);
    }
    if low_above_high(lows, highs) {
        return Err(Refusal::LowAboveHigh);
    }
    label_mesh(mesh, scratch)?;
    if either_past_limit(lows, highs) {
        return Err(Refusal::WeightLimit);
    }
    write_both(mesh.n, lows, highs, lowest, highest, scratch);
    Ok(())
}

// The public call. Scratch is as lent after 1 and 2, and holds zeros after every other answer.
pub fn forward_range(
    mesh: &Mesh,
    lows: &[i64],
    highs: &[i64],
    lowest: &mut [i64],
    highest: &mut [i64],
    scratch: &mut [i64],
) -> Result<(), Refusal>
    ensures answer { to_answer result ≡ (range_call mesh.now.n mesh.now.outer mesh.now.triangles.now lows.now highs.now
        lowest.old highest.old scratch.old).answer }
    ensures lowest { lowest.new ≡ (range_call mesh.now.n mesh.now.outer mesh.now.triangles.now lows.now highs.now
        lowest.old highest.old scratch.old).low_coordinates }
    ensures highest { highest.new ≡ (range_call mesh.now.n mesh.now.outer mesh.now.triangles.now lows.now highs.now
        lowest.old highest.old scratch.old).high_coordinates }
    ensures scratch { scratch.new ≡ (range_call mesh.now.n mesh.now.outer mesh.now.triangles.now lows.now highs.now
        lowest.old highest.old scratch.old).scratch }
{
    check_sizes(
        mesh.n,
        &[
            (Contents::Triangles, mesh.triangles.len()),
            (Contents::Scratch, scratch.len()),
            (Contents::Weights, lows.len()),
            (Contents::Weights, highs.len()),
            (Contents::Coordinates, lowest.len()),
            (Contents::Coordinates, highest.len()),
        ],
    )?;
    let answer = run_range(mesh, lows, highs, lowest, highest, scratch);
    clear(scratch);
    answer
}
