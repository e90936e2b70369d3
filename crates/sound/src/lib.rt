// The tests that the public entries begin with: of the geometry, of the tables, of the scratch.
#![tactic(auto)]

ghost use Rattle.std.specs.Prelude.{◌≡◌, ℕ, ◌+◌, ◌*◌, ◌≤◌, ◌<◌, ◌^◌, length, take, drop};
ghost use Rattle.std.specs.List.{list_all};
ghost use Rattle.model.specs.Lists.{blank, zeros, total};
ghost use Rattle.model.specs.Numbers.{Good, good?};
ghost use Rattle.model.specs.Tables.{tab_words, pages, view, region};
ghost use Rattle.model.specs.Sound.{soundb};
ghost use Rattle.model.proofs.Official.{Says};
ghost use Rattle.tables.specs.Parts.{tables_in};
ghost use Rattle.sound.specs.Steps.{unlike, Marks, Entries, Slots, Queue, Numbers, Segment, Heads, Balanced};

use model::{Geometry, PhysicalAddress};
use tables::TablesRef;

// Whether every element of s is v. The loop has one way out, so that it is vectorised: `all` and `fold` were tried, and miss a bar of speed.
fn every<T: PartialEq + Copy>(s: &[T], v: T) -> bool
    ensures { result ≡ list_all (λ x. T.eq x v) s.now }
{
    let mut same = true;
    for x in s {
        same &= *x == v;
    }
    same
}

// Whether bytes, a scratch or marks, are all zero.
pub fn blank(s: &[u8]) -> bool
    ensures { result ≡ blank s.now }
{
    every(s, 0)
}

// Whether a scratch of words is all zero. A name of its own: one for both would ask a trait of bytes and words, for a line.
pub fn blank_words(s: &[u32]) -> bool
    ensures { result ≡ blank s.now }
{
    every(s, 0)
}

// How many words of s are not v. A count as wide as the words, so that it is vectorised well.
fn unlike(s: &[u32], v: u32) -> u32
    requires { length s.now < 2 ^ 32 }
    ensures { result ≡ unlike v s.now }
{
    s.iter().map(|x| u32::from(*x != v)).sum()
}

// The sum of the words of s, of which there are few enough that it fits.
#[tactic(auto, using(crate::proofs::Counts::total_sum))]
pub fn total32(s: &[u32]) -> u64
    requires { length s.now ≤ 65535 }
    ensures { result ≡ total s.now }
{
    s.iter().map(|x| u64::from(*x)).sum()
}

// Whether the geometry is one that document 01 allows. Small numbers first: then no product or power of them wraps.
pub fn good(geo: Geometry) -> bool
    ensures { result ≡ good? geo }
{
    (1..=65535).contains(&geo.n)
        && (1..=1024).contains(&geo.p)
        && (1..=16384).contains(&geo.s)
        && geo.w <= 16
        && geo.p <= geo.span()
        && (1..=geo.n * geo.p).contains(&geo.e)
        && geo.limit <= u32::MAX as usize
}

// Whether a segment's first u use marks are 1 and the others 0.
fn marks(used: &[u8], u: usize) -> bool
    requires { u ≤ length used.now }
    ensures { Says result (Marks used.now u) }
{
    every(&used[..u], 1) && every(&used[u..], 0)
}

// A segment's counts and its flag.
#[derive(Clone, Copy)]
struct Record {
    free: usize,
    valid: usize,
    len: usize,
    flag: usize,
}

impl Record {
    // Whether they are right for a segment of p pages.
    fn right(self, p: usize) -> bool
        ensures { Says result (Numbers p self.free self.valid self.len self.flag) }
    {
        self.free <= p
            && self.valid <= p - self.free
            && self.len <= self.valid
            && (self.flag == 0 || self.flag == 1 && self.free == 0)
    }
}

// The used pages of a segment: so many addresses from `first` up, which the map names.
#[derive(Clone, Copy)]
struct Home<'a> {
    map: &'a [u32],
    first: usize,
    used: usize,
}

impl<'a> Home<'a> {
    // Whether the entries of a list are logical pages with addresses of this home, and no two the same.
    // The marks of the pages that were met, which are among the first `used`, are left set.
    fn mark(&self, list: &[u32], seen: &mut [u8]) -> bool
        requires { (seen.old ≡ zeros (length seen.old)) × (self.now.used ≤ length seen.old) }
        ensures says { Says result (Entries list.now self.now.map.now self.now.first self.now.used) }
        ensures seen_unchanged { drop self.now.used seen.new ≡ drop self.now.used seen.old }
    {
        // `get` and `checked_sub`: tried, and miss a bar of speed. Not `all`: its closure would change `seen`.
        for l in list {
            let l = *l as usize;
            if self.map.len() <= l {
                return false;
            }
            let a = self.map[l] as usize;
            if a < self.first {
                return false;
            }
            let k = a - self.first;
            if self.used <= k || seen[k] != 0 {
                return false;
            }
            seen[k] = 1;
        }
        true
    }

    // The same, with the marks handed back all 0.
    fn listed(&self, list: &[u32], seen: &mut [u8]) -> bool
        requires { (seen.old ≡ zeros (length seen.old)) × (self.now.used ≤ length seen.old) }
        ensures says { Says result (Entries list.now self.now.map.now self.now.first self.now.used) }
        ensures seen_unchanged { seen.new ≡ seen.old }
    {
        let ok = self.mark(list, seen);
        seen.fill(0);
        ok
    }

    // Whether the segment's list slots are right: the first `len` as `listed` says, the others 0. An empty list marks nothing, and to clear the marks
    // behind it would cost more than the rest of the test of a small segment.
    fn slots(&self, list: &[u32], len: usize, seen: &mut [u8]) -> bool
        requires len_in_bounds { len ≤ length list.now }
        requires seen_value { (seen.old ≡ zeros (length seen.old)) × (self.now.used ≤ length seen.old) }
        ensures says { Says result (Slots list.now len self.now.map.now self.now.first self.now.used) }
        ensures seen_unchanged { seen.new ≡ seen.old }
    {
        every(&list[len..], 0) && (len == 0 || self.listed(&list[..len], seen))
    }
}

// Whether the queued segments are segments with free count 0 and their flag set, and no two the same. The marks of those met are left set.
fn mark_queue(queue: &[u32], free: &[u32], flags: &[u32], seen: &mut [u8]) -> bool
    requires seen_value { (seen.old ≡ zeros (length seen.old)) × (length free.now ≤ length seen.old) }
    requires free_len { length free.now ≡ length flags.now }
    ensures says { Says result (Queue queue.now free.now flags.now) }
    ensures seen_unchanged { drop (length free.now) seen.new ≡ drop (length free.now) seen.old }
{
    // Not `all`: its closure would change `seen`.
    for q in queue {
        let q = *q as usize;
        if free.len() <= q || free[q] != 0 || flags[q] != 1 || seen[q] != 0 {
            return false;
        }
        seen[q] = 1;
    }
    true
}

// The same, with the marks handed back all 0.
fn queued(queue: &[u32], free: &[u32], flags: &[u32], seen: &mut [u8]) -> bool
    requires seen_value { (seen.old ≡ zeros (length seen.old)) × (length free.now ≤ length seen.old) }
    requires free_len { length free.now ≡ length flags.now }
    ensures says { Says result (Queue queue.now free.now flags.now) }
    ensures seen_unchanged { seen.new ≡ seen.old }
{
    let ok = mark_queue(queue, free, flags, seen);
    seen.fill(0);
    ok
}

// Part g of what is cut into parts of p.
fn part<T>(s: &[T], p: usize, g: usize) -> &[T]
    requires { g * p + p ≤ length s.now }
    ensures { result.now ≡ take p (drop (g * p) s.now) }
{
    &s[g * p..g * p + p]
}

// Whether segment g's record is right. The marks are for its pages.
#[tactic(auto, using(model::proofs::Slots::part_fits))]
fn segment(tables: &TablesRef<'_>, g: usize, seen: &mut [u8]) -> bool
    requires { (g < tables.now.geo.n) × (seen.old ≡ zeros tables.now.geo.p) }
    ensures says { Says result (Segment tables.now.geo (tables_in tables.now) g) }
    ensures seen_unchanged { seen.new ≡ seen.old }
{
    let p = tables.geo.p;
    let record = Record {
        free: tables.free()[g] as usize,
        valid: tables.valid()[g] as usize,
        len: tables.lens()[g] as usize,
        flag: tables.flags()[g] as usize,
    };
    if !record.right(p) {
        return false;
    }
    let home = Home {
        map: tables.map(),
        first: g * tables.geo.span(),
        used: p - record.free,
    };
    marks(part(tables.used, p, g), home.used)
        && home.slots(part(tables.lists(), p, g), record.len, seen)
}

// Whether every segment's record is right.
fn segments(tables: &TablesRef<'_>, seen: &mut [u8]) -> bool
    requires { seen.old ≡ zeros tables.now.geo.p }
    ensures says { Says result ((g : ℕ) → g < tables.now.geo.n → Segment tables.now.geo (tables_in tables.now) g) }
    ensures seen_unchanged { seen.new ≡ seen.old }
{
    // Not `all`: its closure would change `seen`.
    for g in 0..tables.geo.n {
        if !segment(tables, g, seen) {
            return false;
        }
    }
    true
}

// Whether the allocation segment and the queue are right. The marks are for the segments.
fn heads(tables: &TablesRef<'_>, seen: &mut [u8]) -> bool
    requires { seen.old ≡ zeros tables.now.geo.n }
    ensures says { Says result (Heads tables.now.geo (tables_in tables.now)) }
    ensures seen_unchanged { seen.new ≡ seen.old }
{
    let n = tables.geo.n;
    let count = tables.queued();
    let queue = tables.queue();
    if n <= tables.alloc() || n < count {
        return false;
    }
    every(&queue[count..], 0) && queued(&queue[..count], tables.free(), tables.flags(), seen)
}

// Whether the lists have as many entries as the map has mapped pages.
fn balanced(tables: &TablesRef<'_>) -> bool
    ensures { Says result (Balanced (tables_in tables.now)) }
{
    total32(tables.lens()) == u64::from(unlike(tables.map(), PhysicalAddress::EMPTY.0))
}

// The soundness test. It is linear: a look at each word and each use mark, and one at the map for each list entry.
// The first n marks are for the segments in the queue, the p behind them for the pages of one segment after the other.
pub fn sound(geo: Geometry, tab: &[u32], used: &[u8], seen: &mut [u8]) -> bool
    requires good { Good geo }
    requires tab_len { (length tab.now ≡ tab_words geo) × (length used.now ≡ pages geo) × (seen.old ≡ zeros (geo.n + geo.p)) }
    ensures value { result ≡ soundb geo (view geo tab.now used.now) }
    ensures seen_after { seen.new ≡ zeros (geo.n + geo.p) }
{
    let tables = TablesRef { geo, tab, used };
    let (segment_marks, page_marks) = seen.split_at_mut(geo.n);
    heads(&tables, segment_marks) && segments(&tables, page_marks) && balanced(&tables)
}
