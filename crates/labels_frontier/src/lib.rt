// Vertices come onto the frontier and leave it: degrees, the triangles that are passed, and the frontier's darts, in scratch. What the tables hold is told
// where the work is defined. Nothing is tested that an accepted mesh settles: what each step asks of the tables is in labels_model, and the steps before it
// leave it so.
#![tactic(auto)]

ghost use Rattle.std.specs.Prelude.{◌≡◌, ◌+◌, ◌*◌, ◌<◌, ◌^◌, length};
ghost use Rattle.scratch_tables.specs.Tables.{vertex_in};
ghost use Rattle.labels_tables.specs.Peeling.{peeling, set_order};
ghost use Rattle.labels_search.specs.Staged.{tables, Same, Becomes};
ghost use Rattle.labels_model.specs.Preconditions.{CanEnter, CanPass, CanLeave};
ghost use Rattle.labels_model.specs.Model.{update_degree, decrement_degree, count_neighbour, count_neighbours, enter_frontier, add_frontier_dart};
ghost use Rattle.labels_model.specs.Model.{pass_triangle, pass_fan, leave_frontier, remove_vertex};
ghost use Rattle.labels_frontier.specs.FrontierLaws.{TriangleIn};

use labels_search::Stage;
use labels_tables::{
    degree, left_dart, origin, right_dart, set_apex, set_degree, set_left, set_right, tip, turn,
};
use scratch_tables::{Column, next_dart, prev_dart};

// ---- degrees

// the degree of w, with which it may be able to leave
#[tactic(auto, unfolding(labels_model::specs::Model::update_degree, labels_model::specs::Model::add_candidate))]
fn update_degree(s: &mut Stage<'_>, w: usize, c: usize)
    requires { (w < s.old.n) × (c < 65536) }
    ensures { Becomes s.old s.new (update_degree s.old.n w c (tables s.old)) }
{
    set_degree(s.words, w, c);
    if c == 3 {
        s.add(w);
    }
}

// vertex w has one frontier neighbour less
#[tactic(auto, unfolding(labels_model::specs::Model::decrement_degree))]
fn decrement_degree(s: &mut Stage<'_>, w: usize)
    requires { (w < s.old.n) × (0 < (tables s.old).degree w) }
    ensures { Becomes s.old s.new (decrement_degree s.old.n w (tables s.old)) }
{
    let c = degree(s.as_slice(), w);
    update_degree(s, w, c - 1);
}

// ---- a vertex comes onto the frontier

// w is a neighbour of a vertex that comes onto the frontier and has counted c: where w is on the frontier they count each other
#[tactic(auto, unfolding(labels_model::specs::Model::count_neighbour, labels_model::specs::Model::increment_degree))]
fn count_neighbour(s: &mut Stage<'_>, w: usize, c: usize) -> usize
    requires { (w < s.old.n) × ((tables s.old).degree w < 65535) × (c < 65535) }
    ensures same { Same s.old s.new }
    ensures counted { count_neighbour s.old.n w c (tables s.old) ≡ record { count = result; tables = tables s.new } }
{
    let k = degree(s.as_slice(), w);
    if 0 < k {
        update_degree(s, w, k + 1);
        c + 1
    } else {
        c
    }
}

// the neighbours that turns from `first` on lead to, until it comes again; the answer is one more than were counted
fn count_neighbours(s: &mut Stage<'_>, first: usize) -> usize
    requires { CanEnter s.old.n first (tables s.old) }
    ensures same { Same s.old s.new }
    ensures counted { count_neighbours s.old.n first (6 * s.old.n) first 1 (tables s.old) ≡ record { count = result; tables = tables s.new } }
    ensures few { result < 65536 }
{
    let mut d = first;
    let mut c = 1;
    loop {
        let words = s.as_slice();
        let w = origin(words, prev_dart(d));
        let h = turn(words, d);
        c = count_neighbour(s, w, c);
        if h == first {
            return c;
        }
        d = h;
    }
}

// u comes onto the frontier; d is one of its darts
#[tactic(auto, unfolding(labels_model::specs::Model::enter_frontier))]
fn enter_frontier(s: &mut Stage<'_>, u: usize, d: usize)
    requires { (u < s.old.n) × CanEnter s.old.n d (tables s.old) }
    ensures { Becomes s.old s.new (enter_frontier s.old.n u d (tables s.old)) }
{
    let c = count_neighbours(s, d);
    update_degree(s, u, c);
}

// ---- a vertex leaves the frontier

// a new dart of the frontier, from v to w
#[tactic(auto, unfolding(labels_model::specs::Model::add_frontier_dart))]
pub fn add_frontier_dart(s: &mut [i64], v: usize, w: usize, x: usize)
    requires { vertex_in (length s.old) v × vertex_in (length s.old) w × (x < 65536) }
    ensures { peeling s.new ≡ add_frontier_dart v w x (peeling s.old) }
{
    set_right(s, w, x);
    set_left(s, v, x);
}

// the triangle of dart g is passed
#[tactic(auto, unfolding(labels_model::specs::Model::pass_triangle, definitions::specs::Mesh::tri))]
fn pass_triangle(s: &mut [i64], g: usize)
    requires { TriangleIn (length s.old) g (peeling s.old) }
    ensures { peeling s.new ≡ pass_triangle g (peeling s.old) }
{
    let p = prev_dart(g);
    let v = origin(s, p);
    let x = turn(s, p);
    let w = origin(s, next_dart(g));
    set_apex(s, g / 3, g % 3);
    add_frontier_dart(s, v, w, x);
}

// The triangles of the leaving vertex, from that of `first` on to the one that ends at `right`, are passed, and the vertices between come onto the
// frontier.
fn pass_fan(s: &mut Stage<'_>, right: usize, first: usize)
    requires { CanPass s.old.n right first (tables s.old) }
    ensures { Becomes s.old s.new (pass_fan s.old.n right (6 * s.old.n) first (tables s.old)) }
{
    let mut g = first;
    loop {
        let p = prev_dart(g);
        let words = s.as_slice();
        let u = origin(words, p);
        let h = turn(words, g);
        pass_triangle(s.words, g);
        if u == right {
            return;
        }
        enter_frontier(s, u, p);
        g = h;
    }
}

// the i-th vertex that leaves
fn set_removed(s: &mut [i64], i: usize, v: usize)
    requires { vertex_in (length s.old) i × (v < 2 ^ 63) }
    ensures { peeling s.new ≡ set_order i v (peeling s.old) }
{
    scratch_tables::set_word(s, Column::OddMark, i, v);
}

// v leaves as the i-th, from between `left` and `right`
#[tactic(auto, unfolding(labels_model::specs::Model::leave_frontier))]
fn leave_frontier(s: &mut Stage<'_>, i: usize, v: usize, left: usize, right: usize)
    requires { (i < s.old.n) × (v < s.old.n) × (left < s.old.n) × (right < s.old.n) × (1 < (tables s.old).degree left)
        × (1 < (tables s.old).degree right) }
    ensures { Becomes s.old s.new (leave_frontier s.old.n i v left right (tables s.old)) }
{
    decrement_degree(s, left);
    decrement_degree(s, right);
    set_degree(s.words, v, 0);
    set_removed(s.words, i, v);
}

#[tactic(auto, unfolding(labels_model::specs::Model::remove_vertex))]
pub fn remove_vertex(s: &mut Stage<'_>, i: usize, v: usize)
    requires { (i < s.old.n) × CanLeave s.old.n v (tables s.old) }
    ensures { Becomes s.old s.new (remove_vertex s.old.n i v (tables s.old)) }
{
    let words = s.as_slice();
    let g = left_dart(words, v);
    let left = tip(words, g);
    let right = origin(words, right_dart(words, v));
    leave_frontier(s, i, v, left, right);
    pass_fan(s, right, g);
}
