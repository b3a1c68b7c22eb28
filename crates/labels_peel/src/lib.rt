// The labels stage over scratch: the vertices leave the frontier one by one, the smallest that can leave first, and their triangles get labels.
// What the tables hold is told where the work is defined.
#![tactic(auto)]

ghost use Rattle.std.specs.Prelude.{◌≡◌, ◌+◌, ◌-◌, ◌<◌, length};
ghost use Rattle.scratch_tables.specs.Tables.{vertex_in};
ghost use Rattle.labels_tables.specs.Peeling.{peeling};
ghost use Rattle.labels_search.specs.Staged.{tables, Same, Becomes};
ghost use Rattle.labels_model.specs.Preconditions.{Room, HasMesh, CanSearch, Stands};
ghost use Rattle.labels_model.specs.Model.{is_removable, find_removable, remove_next, remove_all, clear_vertices, init_degrees, init_frontier, init_sets, init};
ghost use Rattle.labels_model.specs.Model.{peel_tables};

use labels_frontier::add_frontier_dart;
use labels_search::Stage;
use labels_tables::{degree, origin, set_degree, turn};

// ---- the search for the smallest vertex that can leave

// v is on the frontier, is not v0 or v1, and has two frontier neighbours
#[tactic(auto, unfolding(labels_model::specs::Model::is_removable))]
fn is_removable(s: &[i64], v: usize) -> bool
    requires { vertex_in (length s.now) v }
    ensures { result ≡ is_removable (peeling s.now) v }
{
    degree(s, v) == 3 && v != origin(s, 0) && v != origin(s, 2)
}

// candidates are taken until one can leave
fn find_removable(s: &mut Stage<'_>) -> usize
    requires { CanSearch s.old.n (tables s.old) }
    ensures same { Same s.old s.new }
    ensures found { find_removable s.old.n s.old.n (tables s.old) ≡ record { vertex = result; tables = tables s.new } }
{
    loop {
        let v = s.take_lowest();
        if is_removable(s.as_slice(), v) {
            return v;
        }
    }
}

// ---- the vertices in turn

// the smallest vertex that can leave does, as the i-th
#[tactic(auto, unfolding(labels_model::specs::Model::remove_next))]
fn remove_next(s: &mut Stage<'_>, i: usize)
    requires { (i + 2 < s.old.n) × Stands s.old.n i (tables s.old) }
    ensures { Becomes s.old s.new (remove_next s.old.n i (tables s.old)) }
{
    let v = find_removable(s);
    labels_frontier::remove_vertex(s, i, v);
}

// all vertices but v0 and v1 leave
fn remove_all(s: &mut Stage<'_>)
    requires { Stands s.old.n 0 (tables s.old) }
    ensures { Becomes s.old s.new (remove_all s.old.n (s.old.n - 2) 0 (tables s.old)) }
{
    for i in 0..s.n - 2 {
        remove_next(s, i);
    }
}

// ---- the start

// no vertex is on the frontier
fn clear_vertices(s: &mut Stage<'_>)
    ensures { Becomes s.old s.new (clear_vertices s.old.n 0 (tables s.old)) }
{
    for v in 0..s.n {
        labels_tables::set_vertex(s.words, v, 0, 0, 0);
    }
}

// the outer vertices are, each with the two others as its frontier neighbours
#[tactic(auto, unfolding(labels_model::specs::Model::init_degrees))]
fn init_degrees(s: &mut Stage<'_>)
    requires { HasMesh s.old.n (tables s.old) }
    ensures { Becomes s.old s.new (init_degrees (tables s.old)) }
{
    let words = s.as_slice();
    let a = origin(words, 0);
    let b = origin(words, 1);
    let c = origin(words, 2);
    set_degree(s.words, a, 3);
    set_degree(s.words, b, 3);
    set_degree(s.words, c, 3);
}

#[tactic(auto, unfolding(labels_model::specs::Model::init_frontier))]
fn init_frontier(s: &mut Stage<'_>)
    requires { HasMesh s.old.n (tables s.old) }
    ensures { Becomes s.old s.new (init_frontier (tables s.old)) }
{
    let words = s.as_slice();
    let a = origin(words, 0);
    let b = origin(words, 1);
    let c = origin(words, 2);
    let x = turn(words, 1);
    let y = turn(words, 2);
    add_frontier_dart(s.words, b, a, x);
    add_frontier_dart(s.words, c, b, y);
}

// v2 is the first candidate
#[tactic(auto, unfolding(labels_model::specs::Model::init_sets, labels_model::specs::Model::add_candidate))]
fn init_sets(s: &mut Stage<'_>)
    requires { HasMesh s.old.n (tables s.old) }
    ensures { Becomes s.old s.new (init_sets s.old.n (tables s.old)) }
{
    let b = origin(s.as_slice(), 1);
    s.clear_sets();
    s.add(b);
}

#[tactic(auto, unfolding(labels_model::specs::Model::init))]
fn init(s: &mut Stage<'_>)
    requires { HasMesh s.old.n (tables s.old) }
    ensures { Becomes s.old s.new (init s.old.n (tables s.old)) }
{
    clear_vertices(s);
    init_degrees(s);
    init_frontier(s);
    init_sets(s);
}

// the whole stage
#[tactic(auto, unfolding(labels_model::specs::Model::peel_tables))]
pub fn peel(n: usize, s: &mut [i64])
    requires { Room n (length s.old) × HasMesh n (peeling s.old) }
    ensures { peeling s.new ≡ peel_tables n (peeling s.old) }
{
    let mut stage = Stage::new(n, s);
    init(&mut stage);
    remove_all(&mut stage);
}
