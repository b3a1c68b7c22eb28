// The mesh check: rows 1, 2, 21 and 3 to 8 of the table of refusals and 25 at the place of 7, each over the whole mesh before the next, in work linear
// in n.
// The triangles are read until each dart's origin stands in its word, the outer triangle's in front. From then on scratch tells everything:
// `mesh_tables` says what its words hold.
#![tactic(auto)]

ghost use Rattle.std.specs.Prelude.{◌≡◌, length};
ghost use Rattle.definitions.specs.Mesh.{fronted};
ghost use Rattle.definitions.specs.Refusals.{check_call};
ghost use Rattle.mesh_answer.specs.Answer.{to_answer};
ghost use Rattle.mesh_check.specs.Stages.{Lent, Rimmed, SidesPaired, Examined};

use lent_slices::{Contents, check_sizes};
use mesh_answer::Refusal;
use mesh_connectivity::disconnected;
use mesh_rings::check_rings;
use mesh_sides::{fill_incidence_lists, high_vertex, match_sides};
use scratch_tables::{clear, clear_vertices};

// A mesh as every call on one is lent it: how many vertices it has, which triangle is opened as the rim, and the corners of all triangles.
#[derive(Clone, Copy)]
pub struct Mesh<'a> {
    pub n: usize,
    pub outer: usize,
    pub triangles: &'a [u16],
}

// Rows 3 to 7, and 25. Which vertex has not one ring is asked only where one has not.
fn pair_sides(mesh: &Mesh, scratch: &mut [i64]) -> Result<(), Refusal>
    requires { Rimmed mesh.now.n mesh.now.outer mesh.now.triangles.now (length scratch.old) }
    ensures { SidesPaired mesh.now.n (fronted mesh.now.outer mesh.now.triangles.now) scratch.new result }
{
    if high_vertex(mesh.n, mesh.triangles) {
        return Err(Refusal::VertexNumber);
    }
    clear_vertices(scratch);
    if fill_incidence_lists(mesh.outer, mesh.triangles, scratch) {
        return Err(Refusal::RepeatedVertex);
    }
    if match_sides(mesh.n, scratch)? {
        return Ok(());
    }
    check_rings(mesh.n, scratch)
}

// Rows 21 and 3 to 8, for every call on a mesh. Where the mesh is accepted scratch holds each dart's turn and origin. Where it is refused nothing is said of
// scratch: the call clears it.
pub fn examine(mesh: &Mesh, scratch: &mut [i64]) -> Result<(), Refusal>
    requires { Lent mesh.now.n mesh.now.triangles.now (length scratch.old) }
    ensures { Examined mesh.now.n mesh.now.outer mesh.now.triangles.now scratch.new result }
{
    let triangles = mesh.triangles.len() / 3;
    if triangles <= mesh.outer {
        return Err(Refusal::OuterTriangle);
    }
    pair_sides(mesh, scratch)?;
    if disconnected(scratch, triangles) {
        return Err(Refusal::Disconnected);
    }
    Ok(())
}

// The public call. Scratch is as lent after 1 and 2, and holds zeros after every other answer.
pub fn check(mesh: &Mesh, scratch: &mut [i64]) -> Result<(), Refusal>
    ensures answer { to_answer result ≡ (check_call mesh.now.n mesh.now.outer mesh.now.triangles.now scratch.old).answer }
    ensures scratch { scratch.new ≡ (check_call mesh.now.n mesh.now.outer mesh.now.triangles.now scratch.old).scratch }
{
    check_sizes(
        mesh.n,
        &[
            (Contents::Triangles, mesh.triangles.len()),
            (Contents::Scratch, scratch.len()),
        ],
    )?;
    let answer = examine(mesh, scratch);
    clear(scratch);
    answer
}
