// The vertices in preorder of the colour-0 forest and of the colour-1 forest, made in scratch after the words of the raises have been packed. For each colour:
// the sizes of the subtrees, from the first removed vertex to the last; the position of each, in reverse; the ranges of the subtrees whose side a walk crosses,
// into the words of the walks; the vertices at their positions. Remainders, `saturating_sub` and `clamp_index` keep stores in their tables whatever the words
// say; where paths lead to the roots they change nothing.
#![tactic(auto)]

ghost use Rattle.std.specs.Prelude.{◌≡◌, ◌+◌, ◌-◌, ◌*◌, ◌<◌, ◌≤◌, ◌^◌, length};
ghost use Rattle.scratch_tables.specs.Tables.{tables_of, set_head, set_mark};
ghost use Rattle.scratch_tables.specs.Fields.{field3};
ghost use Rattle.labels_tables.specs.Peeling.{Peeling};
ghost use Rattle.repair_model.specs.PackedWords.{Packed, WalksPacked};
ghost use Rattle.repair_model.specs.PreorderWords.{Preordered};
ghost use Rattle.repair_preorder.specs.Model.{upward, downward, parent, init_size, add_size, allocate_range, with_range, store_range, clamp_index};
ghost use Rattle.repair_preorder.specs.Model.{store_entry, store_vertex, sizes_computed, positions_computed, preorder_built};
ghost use Rattle.repair_preorder.specs.LoopInvariants.{PassPre, WalksIn, PreorderPre};
ghost use Rattle.repair_preorder.specs.RootedForest.{RootedForest};

use labels_tables::origin;
use repair_words::{removed_at, walk_at};
use scratch_tables::{Column, field, pack, set_op, set_word};

// In the word of a vertex that left, its parent; in the word of a triangle, the tail of its side. A colour is the number 0 or 1 of document 01, since
// `colour + 1` is the number in a triangle's word that says of which colour its side is.
#[tactic(auto, unfolding(crate::specs::Model::parent))]
fn parent(w: usize, colour: usize) -> usize
    ensures is { result ≡ parent colour w }
    ensures small { result < 65536 }
{
    if colour == 0 {
        field::<1>(w)
    } else {
        field::<2>(w)
    }
}

// A place of the preorder, which has n. `min` would send the others to the last place, and the passes of the model send them to the first.
#[tactic(auto, unfolding(crate::specs::Model::clamp_index))]
fn clamp_index(n: usize, i: usize) -> usize
    requires { 0 < n }
    ensures is { result ≡ clamp_index n i }
    ensures small { result < n }
{
    if i < n { i } else { 0 }
}

// Scratch with the tables of n vertices. Whatever the passes store, the words of the vertices that left name vertices.
#[derive(Drop)]
struct Passes<'a> {
    n: usize,
    words: &'a mut [i64],
    ghost named: { PassPre n (length words.now) (tables_of words.now) },
}

impl<'a> Passes<'a> {
    ghost use Rattle.repair_preorder.specs.Passing.{tables, Becomes};

    // the word of the k-th vertex that left
    fn removed(&self, k: usize) -> usize
        requires { k < self.now.n - 2 }
        ensures is { result ≡ (tables self.now).mark (2 * k + 1) }
        ensures small { result < 2 ^ 63 }
    {
        removed_at(self.words, k)
    }

    // where the colour-2 walk of triangle t goes
    fn walk(&self, t: usize) -> usize
        requires { t < 2 * self.now.n - 4 }
        ensures is { result ≡ (tables self.now).op (3 * t) }
        ensures small { result < 2 ^ 63 }
    {
        walk_at(self.words, t)
    }

    // While a preorder is built: the size of the subtree of vertex v, and where its range ends.
    fn subtree_size(&self, v: usize) -> usize
        requires { v < self.now.n }
        ensures is { result ≡ (tables self.now).mark (2 * v) }
        ensures small { result < 2 ^ 63 }
    {
        scratch_tables::word(self.words, Column::EvenMark, v)
    }

    fn set_subtree_size(&mut self, v: usize, size: usize)
        requires { (v < self.old.n) × (size < 2 ^ 63) }
        ensures { Becomes self.old self.new (set_mark (2 * v) size (tables self.old)) }
    {
        set_word(self.words, Column::EvenMark, v, size);
    }

    fn range_end(&self, v: usize) -> usize
        requires { v < self.now.n }
        ensures is { result ≡ (tables self.now).head v }
        ensures small { result < 2 ^ 63 }
    {
        scratch_tables::word(self.words, Column::Head, v)
    }

    fn set_range_end(&mut self, v: usize, end: usize)
        requires { (v < self.old.n) × (end < 2 ^ 63) }
        ensures { Becomes self.old self.new (set_head v end (tables self.old)) }
    {
        set_word(self.words, Column::Head, v, end);
    }

    // Each vertex for itself. Each pass is a `for` of its own: a call that passed the step as a closure would be as long.
    #[tactic(auto, using(crate::specs::LoopInvariants::up_next), unfolding(crate::specs::Model::upward, crate::specs::Model::init_size))]
    fn init_sizes(&mut self)
        ensures { Becomes self.old self.new (upward init_size self.old.n (tables self.old)) }
    {
        for v in 0..self.n {
            self.set_subtree_size(v, 1);
        }
    }

    // the k-th vertex that left, for its parent too
    #[tactic(auto, using(crate::specs::LoopInvariants::steps), unfolding(crate::specs::Model::add_size))]
    fn add_size(&mut self, colour: usize, k: usize)
        requires { k < self.old.n - 2 }
        ensures { Becomes self.old self.new (add_size colour k (tables self.old)) }
    {
        let w = self.removed(k);
        let u = parent(w, colour);
        let a = self.subtree_size(u);
        let b = self.subtree_size(field::<0>(w));
        self.set_subtree_size(u, (a + b) % 65536);
    }

    #[tactic(auto, using(crate::specs::LoopInvariants::up_next), unfolding(crate::specs::Model::upward))]
    fn accumulate_sizes(&mut self, colour: usize)
        ensures { Becomes self.old self.new (upward (add_size colour) (self.old.n - 2) (tables self.old)) }
    {
        for k in 0..self.n - 2 {
            self.add_size(colour, k);
        }
    }

    // the k-th vertex that left takes its place from the end of what its parent has left
    #[tactic(auto, using(crate::specs::LoopInvariants::steps), unfolding(crate::specs::Model::allocate_range))]
    fn allocate_range(&mut self, colour: usize, k: usize)
        requires { k < self.old.n - 2 }
        ensures { Becomes self.old self.new (allocate_range colour k (tables self.old)) }
    {
        let w = self.removed(k);
        let v = field::<0>(w);
        let u = parent(w, colour);
        let end = self.range_end(u);
        let rest = end.saturating_sub(self.subtree_size(v));
        self.set_range_end(v, end);
        self.set_range_end(u, rest);
    }

    #[tactic(auto, using(crate::specs::LoopInvariants::down_next, crate::specs::LoopInvariants::down_ends))]
    fn allocate_ranges(&mut self, colour: usize)
        ensures { Becomes self.old self.new (downward (allocate_range colour) (self.old.n - 2) (tables self.old)) }
    {
        for k in (0..self.n - 2).rev() {
            self.allocate_range(colour, k);
        }
    }

    // the word w with the place and the size of a subtree, if it leads across a side of the colour
    #[tactic(auto, unfolding(crate::specs::Model::with_range))]
    fn with_range(&self, colour: usize, w: usize) -> usize
        requires { (w < 2 ^ 63) × (colour < 2) × (field3 w ≡ colour + 1 → parent colour w < self.now.n) }
        ensures is { result ≡ with_range colour w (tables self.now) }
        ensures small { result < 2 ^ 63 }
    {
        let f = field::<3>(w);
        if f == colour + 1 {
            let v = parent(w, colour);
            let from = field::<0>(self.range_end(v).saturating_sub(1));
            let size = field::<0>(self.subtree_size(v));
            pack(field::<0>(w), from, size, f)
        } else {
            w
        }
    }

    #[tactic(auto, using(crate::specs::LoopInvariants::store_range_is))]
    fn store_range(&mut self, colour: usize, t: usize)
        requires { (0 < t) × (t < 2 * self.old.n - 4) × (colour < 2) × (field3 ((tables self.old).op (3 * t)) ≡ colour + 1 →
            parent colour ((tables self.old).op (3 * t)) < self.old.n) }
        ensures { Becomes self.old self.new (store_range colour t (tables self.old)) }
    {
        let w = self.walk(t);
        let r = self.with_range(colour, w);
        set_op(self.words, 3 * t, r);
    }

    #[tactic(auto, using(crate::specs::LoopInvariants::up_next), unfolding(crate::specs::Model::upward, crate::specs::Model::store_range))]
    fn store_ranges(&mut self, colour: usize)
        requires { WalksIn self.old.n colour (tables self.old) × (colour < 2) }
        ensures { Becomes self.old self.new (upward (store_range colour) (2 * self.old.n - 4) (tables self.old)) }
    {
        for t in 1..2 * self.n - 4 {
            self.store_range(colour, t);
        }
    }

    #[tactic(auto, using(crate::specs::LoopInvariants::count_kept), unfolding(crate::specs::Model::store_entry))]
    fn store_entry(&mut self, colour: usize, i: usize, x: usize)
        requires { (i < self.old.n) × (x < 65536) }
        ensures { Becomes self.old self.new (store_entry colour i x (tables self.old)) }
    {
        if colour == 0 {
            set_word(self.words, Column::Count, i, x);
        } else {
            set_word(self.words, Column::EvenMark, i, x);
        }
    }

    // the k-th vertex that left, at its place
    #[tactic(auto, using(crate::specs::LoopInvariants::steps), unfolding(crate::specs::Model::store_vertex))]
    fn store_vertex(&mut self, colour: usize, k: usize)
        requires { k < self.old.n - 2 }
        ensures { Becomes self.old self.new (store_vertex self.old.n colour k (tables self.old)) }
    {
        let v = field::<0>(self.removed(k));
        let i = clamp_index(self.n, self.range_end(v).saturating_sub(1));
        self.store_entry(colour, i, v);
    }

    #[tactic(auto, using(crate::specs::LoopInvariants::up_next), unfolding(crate::specs::Model::upward))]
    fn store_vertices(&mut self, colour: usize)
        ensures { Becomes self.old self.new (upward (store_vertex self.old.n colour) (self.old.n - 2) (tables self.old)) }
    {
        for k in 0..self.n - 2 {
            self.store_vertex(colour, k);
        }
    }

    // the sizes of the subtrees of a colour
    #[tactic(auto, unfolding(crate::specs::Model::sizes_computed))]
    fn compute_sizes(&mut self, colour: usize)
        ensures { Becomes self.old self.new (sizes_computed self.old.n colour (tables self.old)) }
    {
        self.init_sizes();
        self.accumulate_sizes(colour);
    }

    // their ranges: the root has all of the preorder
    #[tactic(auto, unfolding(crate::specs::Model::positions_computed, crate::specs::Model::init_root))]
    fn compute_positions(&mut self, colour: usize, root: usize)
        requires { root < self.old.n }
        ensures { Becomes self.old self.new (positions_computed self.old.n colour root (tables self.old)) }
    {
        let size = self.subtree_size(root);
        self.set_range_end(root, size);
        self.allocate_ranges(colour);
    }

    // The preorder of a colour. Inlined: where each store was followed by reading the fields through `self` again, the passes took half as long again.
    #[inline(always)]
    #[tactic(auto, unfolding(crate::specs::Model::preorder_built))]
    fn build_preorder(&mut self, colour: usize, root: usize)
        requires { WalksIn self.old.n colour (tables self.old) × (colour < 2) × (root < self.old.n) }
        ensures { Becomes self.old self.new (preorder_built self.old.n colour root (tables self.old)) }
    {
        self.compute_sizes(colour);
        self.compute_positions(colour, root);
        self.store_ranges(colour);
        self.store_vertices(colour);
    }
}

// The preorders of both colours. Where the words were packed from the tables T, and the paths in T lead to v0 and v1, their subtrees are ranges of these.
pub fn build_preorders(n: usize, scratch: &mut [i64])
    requires { PreorderPre n scratch.old }
    ensures { (T : Peeling) → Packed n T (tables_of scratch.old) → WalksPacked n T (tables_of scratch.old) →
        RootedForest n T → Preordered n T (tables_of scratch.new) }
{
    let v0 = origin(scratch, 0);
    let v1 = origin(scratch, 2);
    let mut passes = Passes { n, words: scratch };
    passes.build_preorder(0, v0);
    passes.build_preorder(1, v1);
}
