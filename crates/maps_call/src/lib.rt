// The maps between weights and coordinates. Both find the labels of the mesh first; the maps themselves are linear in n. Of scratch they use the ten
// words a vertex that the labels stage uses.
#![tactic(auto)]

ghost use Rattle.std.specs.Prelude.{◌≡◌, length};
ghost use Rattle.definitions.specs.Refusals.{forward_call, backward_call};
ghost use Rattle.lent_slices.specs.MapLengths.{Lengths};
ghost use Rattle.mesh_answer.specs.Answer.{to_answer};

use labels_call::label_mesh;
use lent_slices::{Contents, check_sizes};
use maps_backward::{weights_past_limit, write_weights};
use maps_forward::write_coordinates;
use maps_limits::{off_corner, off_sum, out_of_range, past_limit};
use mesh_answer::Refusal;
use mesh_check::Mesh;
use scratch_tables::clear;

// Rows 21 and 3 to 9, and the coordinates. Nothing is said of scratch: the call clears it.
fn run_forward(
    mesh: &Mesh,
    weights: &[i64],
    coordinates: &mut [i64],
    scratch: &mut [i64],
) -> Result<(), Refusal>
    requires { Lengths mesh.now.n (length mesh.now.triangles.now) (length scratch.old) (length weights.now) (length coordinates.old) }
    ensures answer { to_answer result ≡
        (forward_call mesh.now.n mesh.now.outer mesh.now.triangles.now weights.now coordinates.old scratch.old).answer }
    ensures coordinates { coordinates.new ≡
        (forward_call mesh.now.n mesh.now.outer mesh.now.triangles.now weights.now coordinates.old scratch.old).coordinates }
{
    label_mesh(mesh, scratch)?;
    if past_limit(weights) {
        return Err(Refusal::WeightLimit);
    }
    write_coordinates(mesh.n, weights, coordinates, scratch);
    Ok(())
}

// The public call. Scratch is as lent after 1 and 2, and holds zeros after every other answer.
pub fn forward(
    mesh: &Mesh,
    weights: &[i64],
    coordinates: &mut [i64],
    scratch: &mut [i64],
) -> Result<(), Refusal>
    ensures answer { to_answer result ≡
        (forward_call mesh.now.n mesh.now.outer mesh.now.triangles.now weights.now coordinates.old scratch.old).answer }
    ensures coordinates { coordinates.new ≡
        (forward_call mesh.now.n mesh.now.outer mesh.now.triangles.now weights.now coordinates.old scratch.old).coordinates }
    ensures scratch { scratch.new ≡
        (forward_call mesh.now.n mesh.now.outer mesh.now.triangles.now weights.now coordinates.old scratch.old).scratch }
{
    check_sizes(
        mesh.n,
        &[
            (Contents::Triangles, mesh.triangles.len()),
            (Contents::Scratch, scratch.len()),
            (Contents::Weights, weights.len()),
            (Contents::Coordinates, coordinates.len()),
        ],
    )?;
    let answer = run_forward(mesh, weights, coordinates, scratch);
    clear(scratch);
    answer
}

// Rows 21 and 3 to 8, then 10, 11, 12 and 9, and the weights. Nothing is said of scratch: the call clears it.
fn run_backward(
    mesh: &Mesh,
    coordinates: &[i64],
    weights: &mut [i64],
    scratch: &mut [i64],
) -> Result<(), Refusal>
    requires { Lengths mesh.now.n (length mesh.now.triangles.now) (length scratch.old) (length weights.old) (length coordinates.now) }
    ensures answer { to_answer result ≡
        (backward_call mesh.now.n mesh.now.outer mesh.now.triangles.now coordinates.now weights.old scratch.old).answer }
    ensures weights { weights.new ≡
        (backward_call mesh.now.n mesh.now.outer mesh.now.triangles.now coordinates.now weights.old scratch.old).weights }
{
    label_mesh(mesh, scratch)?;
    if out_of_range(coordinates) {
        return Err(Refusal::CoordinateLimit);
    }
    if off_corner(coordinates, scratch) {
        return Err(Refusal::OffCorner);
    }
    if off_sum(mesh.n, coordinates, scratch) {
        return Err(Refusal::OffSum);
    }
    if weights_past_limit(mesh.n, coordinates, scratch) {
        return Err(Refusal::WeightLimit);
    }
    write_weights(weights, scratch);
    Ok(())
}

// The public call. Scratch is as lent after 1 and 2, and holds zeros after every other answer.
pub fn backward(
    mesh: &Mesh,
    coordinates: &[i64],
    weights: &mut [i64],
    scratch: &mut [i64],
) -> Result<(), Refusal>
    ensures answer { to_answer result ≡
        (backward_call mesh.now.n mesh.now.outer mesh.now.triangles.now coordinates.now weights.old scratch.old).answer }
    ensures weights { weights.new ≡
        (backward_call mesh.now.n mesh.now.outer mesh.now.triangles.now coordinates.now weights.old scratch.old).weights }
    ensures scratch { scratch.new ≡
        (backward_call mesh.now.n mesh.now.outer mesh.now.triangles.now coordinates.now weights.old scratch.old).scratch }
{
    check_sizes(
        mesh.n,
        &[
            (Contents::Triangles, mesh.triangles.len()),
            (Contents::Scratch, scratch.len()),
            (Contents::Weights, weights.len()),
            (Contents::Coordinates, coordinates.len()),
        ],
    )?;
    let answer = run_backward(mesh, coordinates, weights, scratch);
    clear(scratch);
    answer
}
