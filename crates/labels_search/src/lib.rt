// Scratch with room for the tables of n vertices, and in it a set of vertices below n, in the words `sets`. The set has three levels: a member is added,
// and the lowest one found and taken, with one word read and one stored in each level. No loop but the one that clears. It is no set of std,
// since the project has no heap.
#![tactic(auto, using(crate::specs::Stores::stores))]

ghost use Rattle.std.specs.Prelude.{◌≡◌, false, ◌+◌, ◌*◌, ◌<◌, ◌≤◌, ◌^◌, length};
ghost use Rattle.scratch_tables.specs.Tables.{upd, vertex_in};
ghost use Rattle.labels_tables.specs.Peeling.{peeling};
ghost use Rattle.labels_search.specs.Bits.{with_bit, lowest_bit, without_lowest, summary};
ghost use Rattle.labels_search.specs.Sets.{is_empty, emptied, put, add_to, lowest, take_from, Summed};
ghost use Rattle.labels_search.specs.Stores.{with_sets};

use scratch_tables::Column;

// the word x with bit i set; which is its lowest set bit; and x without that bit
#[tactic(auto, using(crate::specs::Bits::shifted_set), unfolding(crate::specs::Bits::with_bit))]
fn with_bit(x: usize, i: usize) -> usize
    requires { (x < 2 ^ 63) × (i < 32) }
    ensures is { result ≡ with_bit i x }
    ensures small { result < 2 ^ 63 }
{
    x | (1 << i)
}

#[tactic(auto, unfolding(crate::specs::Bits::lowest_bit))]
fn lowest_bit(x: usize) -> usize
    ensures is { result ≡ lowest_bit x }
    ensures small { result ≤ 64 }
{
    x.trailing_zeros() as usize
}

#[tactic(auto, unfolding(crate::specs::Bits::without_lowest))]
fn without_lowest(x: usize) -> usize
    requires { 0 < x }
    ensures is { result ≡ without_lowest x }
    ensures small { result ≤ x }
{
    x & (x - 1)
}

// a word of an upper level, once a word below it has become `below`
#[tactic(auto, unfolding(crate::specs::Bits::summary))]
fn summary(below: usize, x: usize) -> usize
    requires { 0 < x }
    ensures is { result ≡ summary below x }
    ensures small { result ≤ x }
{
    if below == 0 { without_lowest(x) } else { x }
}

// scratch of the labels stage, with room for n vertices
#[derive(Drop)]
pub struct Stage<'a> {
    pub n: usize,
    pub words: &'a mut [i64],
    ghost room: { (3 ≤ n) × (n ≤ 4096) × (10 * n ≤ length words.now) },
}

impl<'a> Stage<'a> {
    ghost use Rattle.labels_search.specs.Staged.{tables, Becomes};

    pub fn new(n: usize, words: &'a mut [i64]) -> Stage<'a>
        requires { (3 ≤ n) × (n ≤ 4096) × (10 * n ≤ length words.old) }
        ensures n { result.n ≡ n }
        ensures words { result.words.now ≡ words.old }
        ensures same_reference { result.words.ghost_name ≡ words.entry.ghost_name }
    {
        Stage { n, words }
    }

    // the words, to be read
    pub fn as_slice(&self) -> &[i64]
        ensures { result.now ≡ self.now.words.now }
    {
        self.words
    }

    // the word at place i
    fn word(&self, i: usize) -> usize
        requires { vertex_in (length self.now.words.now) i }
        ensures is { result ≡ (tables self.now).sets i }
        ensures small { result < 2 ^ 63 }
    {
        scratch_tables::word(self.words, Column::Count, i)
    }

    // another word at place i; and with it one of group g and the top word
    fn set_word(&mut self, i: usize, x: usize)
        requires { vertex_in (length self.old.words.now) i × (x < 2 ^ 63) }
        ensures { Becomes self.old self.new (with_sets (upd i x (tables self.old).sets) (tables self.old)) }
    {
        scratch_tables::set_word(self.words, Column::Count, i, x);
    }

    fn put(&mut self, i: usize, g: usize, x: usize, y: usize, z: usize)
        requires { (i < self.old.n) × (1 + g < self.old.n) × (x < 2 ^ 63) × (y < 2 ^ 63) × (z < 2 ^ 63) }
        ensures { Becomes self.old self.new (with_sets (put i g x y z (tables self.old).sets) (tables self.old)) }
    {
        self.set_word(i, x);
        self.set_word(1 + g, y);
        self.set_word(0, z);
    }

    // vertex v as a member
    pub fn add(&mut self, v: usize)
        requires { v < self.old.n }
        ensures { Becomes self.old self.new (with_sets (add_to self.old.n v (tables self.old).sets) (tables self.old)) }
    {
        let i = self.n / 1024 + 2 + v / 32;
        let g = v / 1024;
        let x = self.word(i);
        let y = self.word(1 + g);
        let z = self.word(0);
        self.put(
            i,
            g,
            with_bit(x, v % 32),
            with_bit(y, v / 32 % 32),
            with_bit(z, g),
        );
    }

    // the lowest member, which leaves the set
    pub fn take_lowest(&mut self) -> usize
        requires { Summed self.old.n (tables self.old).sets × (is_empty (tables self.old).sets ≡ false) }
        ensures is { result ≡ lowest self.old.n (tables self.old).sets }
        ensures tables { Becomes self.old self.new (with_sets (take_from self.old.n (tables self.old).sets) (tables self.old)) }
    {
        let z = self.word(0);
        let g = lowest_bit(z);
        let y = self.word(1 + g);
        let b = 32 * g + lowest_bit(y);
        let i = self.n / 1024 + 2 + b;
        let x = self.word(i);
        let left = without_lowest(x);
        let group_left = summary(left, y);
        self.put(i, g, left, group_left, summary(group_left, z));
        32 * b + lowest_bit(x)
    }

    // no member any more, whatever the words were
    pub fn clear_sets(&mut self)
        ensures { Becomes self.old self.new (with_sets (emptied self.old.n (tables self.old).sets) (tables self.old)) }
    {
        for i in 0..self.n / 1024 + self.n / 32 + 3 {
            self.set_word(i, 0);
        }
    }
}
