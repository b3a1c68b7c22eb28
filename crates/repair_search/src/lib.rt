// The next bad triangle, looked for in the order of the numbers. After a raise, of those passed only the ones on the raised triangle's three walks are looked
// at again.
#![tactic(auto)]

ghost use Rattle.std.specs.Prelude.{◌≡◌, ◌+◌, ◌*◌, ◌<◌, ◌≤◌, nat_abs, unwrap_or, IfSome};
ghost use Rattle.definitions.specs.Repair.{limit};
ghost use Rattle.scratch_tables.specs.Tables.{tables_of};
ghost use Rattle.repair_model.specs.Search.{bad_at, raise_at, next_on, Found, Next};
ghost use Rattle.repair_search.specs.SearchLoops.{SearchPre, Lower, Lowest};

use repair_words::{corners_at, other_walks_at, walk_at};
use scratch_tables::field;

// A drawing in which bad triangles can be looked for: coordinates, and scratch with the words of the triangles, whose numbers are below `triangles`.
#[derive(Clone, Copy)]
pub struct Drawing<'a> {
    pub coordinates: &'a [i64],
    pub scratch: &'a [i64],
    pub triangles: usize,
    ghost searchable: { SearchPre scratch.now coordinates.now triangles },
}

impl<'a> Drawing<'a> {
    pub fn new(coordinates: &'a [i64], scratch: &'a [i64], triangles: usize) -> Drawing<'a>
        requires { SearchPre scratch.now coordinates.now triangles }
        ensures coordinates { result.coordinates.now ≡ coordinates.now }
        ensures scratch { result.scratch.now ≡ scratch.now }
        ensures triangles { result.triangles ≡ triangles }
    {
        Drawing {
            coordinates,
            scratch,
            triangles,
        }
    }

    // triangle t is flat or turned
    fn is_bad(self, t: usize) -> bool
        requires { (0 < t) × (t < self.triangles) }
        ensures { result ≡ bad_at (tables_of self.entry.scratch.now) self.entry.coordinates.now t }
    {
        let w = corners_at(self.scratch, t);
        repair_area::bad_at(
            self.coordinates,
            field::<0>(w),
            field::<1>(w),
            field::<2>(w),
        )
    }

    // what it is to be raised by
    pub fn raise_at(self, t: usize) -> i64
        requires { (0 < t) × (t < self.triangles) }
        ensures is { result ≡ raise_at (tables_of self.entry.scratch.now) self.entry.coordinates.now t }
        ensures small { nat_abs result ≤ 4 * limit + 1 }
    {
        let w = corners_at(self.scratch, t);
        repair_area::raise_of(
            self.coordinates,
            field::<0>(w),
            field::<1>(w),
            field::<2>(w),
        )
    }

    // the first bad triangle from `from` on
    pub fn first_bad(self, from: usize) -> Option<usize>
        requires { (0 < from) × (from ≤ self.triangles) }
        ensures found { Found (bad_at (tables_of self.entry.scratch.now) self.entry.coordinates.now) from self.entry.triangles
            (unwrap_or result self.entry.triangles) }
        ensures inside { IfSome result (λ t. t < self.entry.triangles) }
    {
        (from..self.triangles).find(|&t| self.is_bad(t))
    }

    // the next triangle on the walk of colour c; a walk that has come to the outer triangle stays there
    fn next_on_walk(self, c: usize, t: usize) -> usize
        requires { t < self.triangles }
        ensures { result ≡ next_on (tables_of self.entry.scratch.now) c t }
    {
        if t == 0 {
            return 0;
        }
        match c {
            2 => field::<0>(walk_at(self.scratch, t)),
            0 => field::<0>(other_walks_at(self.scratch, t)),
            _ => field::<1>(other_walks_at(self.scratch, t)),
        }
    }

    // i, if it is bad, not below `full`, and below `low`; `low`, if not. `full` and `top`, which stay as they are during a search, tell most of them apart
    // without waiting for `low`.
    fn lower_bad(self, full: usize, top: usize, i: usize, low: usize) -> usize
        requires { (0 < full) × (low ≤ top) × (top ≤ self.triangles) }
        ensures { Lower (bad_at (tables_of self.entry.scratch.now) self.entry.coordinates.now) full i low result }
    {
        if i < top && full <= i && self.is_bad(i) {
            i.min(low)
        } else {
            low
        }
    }

    // the lowest-numbered bad triangle on the three walks from t on, not below `full`; t, if there is none below it. The walks are followed together, and the
    // reads for the next step come first, for a step waits only for the one before it on the same walk.
    fn lowest_on_walks(self, full: usize, t: usize) -> usize
        requires { (0 < full) × (t < self.triangles) }
        ensures { Lowest (tables_of self.entry.scratch.now) (bad_at (tables_of self.entry.scratch.now) self.entry.coordinates.now)
            self.entry.triangles full t result }
    {
        if full == t {
            return t;
        }
        let mut a = t;
        let mut b = t;
        let mut d = t;
        let mut r = t;
        for _ in 0..self.triangles {
            if a + b + d == 0 {
                return r;
            }
            let next_a = self.next_on_walk(0, a);
            let next_b = self.next_on_walk(1, b);
            let next_d = self.next_on_walk(2, d);
            r = self.lower_bad(full, t, a, r);
            r = self.lower_bad(full, t, b, r);
            r = self.lower_bad(full, t, d, r);
            a = next_a;
            b = next_b;
            d = next_d;
        }
        r
    }

    // the first bad triangle after a raise of t, below which none was bad. Those below `full` are not looked at.
    pub fn next_bad(self, full: usize, t: usize) -> Option<usize>
        requires { (0 < full) × (full ≤ t) × (t < self.triangles) }
        ensures next { Next (tables_of self.entry.scratch.now) self.entry.coordinates.now full t self.entry.triangles
            (unwrap_or result self.entry.triangles) }
        ensures inside { IfSome result (λ r. r < self.entry.triangles) }
    {
        let low = self.lowest_on_walks(full, t);
        self.first_bad(low)
    }
}
