// Steps 2 and 4 of document 01 on the lent tables: finding a page, spending it, invalidating, placing. That the tables are sound stays a clause, and no
// part of their type: between the steps of a write it is broken.
#![tactic(auto)]

ghost use Rattle.std.specs.Prelude.{◌≡◌, ◌≤◌, ◌<◌, length};
ghost use Rattle.model.specs.Lists.{occ, without, push_front};
ghost use Rattle.model.specs.Numbers.{Good, seg_of};
ghost use Rattle.model.specs.Tables.{Tables, at, word_of, pages};
ghost use Rattle.model.specs.Sound.{Sound, Mapped};
ghost use Rattle.model.specs.PageMap.{find, spend, unlink, enqueue, invalidate, forget, place};
ghost use Rattle.model.specs.PageGc.{last_of};
ghost use Rattle.tables.specs.Parts.{tables_of, Same, SoundMarksAside, WithAnyMarks};
ghost use Rattle.page_map.specs.Parts.{close_up, Room, Looked};

use model::{Geometry, LogicalPage, PhysicalAddress, Spot};
use tables::TablesMut;

// The words behind place i one place down, a zero behind.
pub fn close_up(slot: &mut [u32], i: usize)
    requires { i < length slot.old }
    ensures { slot.new ≡ close_up i slot.old }
{
    let last = slot.len() - 1;
    slot.copy_within(i + 1.., i);
    slot[last] = 0;
}

// x out of a slot that holds it once. Looked for from the end: a collection drops a list's last page.
fn remove(slot: &mut [u32], x: u32)
    requires { occ x slot.old ≡ 1 }
    ensures { slot.new ≡ without x slot.old }
{
    if let Some(i) = slot.iter().rposition(|y| *y == x) {
        close_up(slot, i);
    }
}

// x in front, each word one place up, the last one gone.
fn push_front(queue: &mut [u32], x: u32)
    requires { 0 < length queue.old }
    ensures { queue.new ≡ push_front x queue.old }
{
    let last = queue.len() - 1;
    queue.copy_within(..last, 1);
    queue[0] = x;
}

// The last logical page of segment v's list.
pub fn last_listed(t: &TablesMut<'_>, v: usize) -> LogicalPage
    requires sound { SoundMarksAside t.now }
    requires listed { (v < t.now.geo.n) × (0 < at t.now.lens.now v) }
    ensures { result.0 ≡ last_of t.now.geo v (tables_of t.now) }
{
    let last = t.lens[v] as usize - 1;
    LogicalPage(t.lists[v * t.geo.p + last] as usize)
}

// The first clear page of the first segment, from the allocation segment on, that is not bad and has one. The first-page rule: a segment's used pages are
// its first ones, so its first clear page is page p - free, and the marks are not looked at. A label yields the page found, as document 01 asks of this walk.
// It looks at the allocation segment and the free counts alone, so no more is lent to it, and these to look at.
pub fn find_page(geo: Geometry, bad: &[u8], alloc: u32, free: &[u32]) -> Option<Spot>
    requires good { Good geo }
    requires sound { (t : Tables) × Sound geo t × Looked t free.now alloc }
    requires sizes { (length free.now ≡ geo.n) × (length bad.now ≡ geo.n) }
    ensures { (t : Tables) → Sound geo t → Looked t free.now alloc → result ≡ find geo bad.now t }
{
    let n = geo.n;
    let alloc = alloc as usize;
    'walk: {
        for i in 0..n {
            let segment = (alloc + i) % n;
            let free = free[segment] as usize;
            if bad[segment] == 0 && free != 0 {
                break 'walk Some(Spot {
                    segment,
                    page: geo.p - free,
                });
            }
        }
        None
    }
}

// The page is used from now on, and its segment is the allocation segment.
pub fn spend(t: &mut TablesMut<'_>, spot: Spot)
    requires marks { length t.old.used.now ≡ pages t.old.geo }
    requires sound { Sound t.old.geo (tables_of t.old) }
    requires in_bounds { (spot.segment < t.old.geo.n) × (spot.page < t.old.geo.p) × (0 < at t.old.free.now spot.segment) }
    ensures same { Same t.old t.new }
    ensures spent { tables_of t.new ≡ spend t.old.geo spot.segment spot.page (tables_of t.old) }
    ensures marks { length t.new.used.now ≡ pages t.new.geo }
{
    let g = spot.segment;
    t.used[t.geo.number_of(spot)] = 1;
    t.free[g] -= 1;
    t.valid[g] += 1;
    *t.alloc = g as u32;
}

// Logical page l leaves the list of segment g, where it is mapped, and the map. Behind the list nothing changes.
fn unlink(t: &mut TablesMut<'_>, l: LogicalPage, g: usize)
    requires sound { SoundMarksAside t.old }
    requires mapped { Mapped (tables_of t.old) l.0 × (seg_of t.old.geo (word_of (tables_of t.old) l.0) ≡ g) }
    ensures same { Same t.old t.new }
    ensures unlinked { tables_of t.new ≡ unlink t.old.geo l.0 g (tables_of t.old) }
{
    let start = g * t.geo.p;
    let end = start + t.lens[g] as usize;
    remove(&mut t.lists[start..end], l.0 as u32);
    t.map[l.0] = PhysicalAddress::EMPTY.0;
    t.lens[g] -= 1;
    t.valid[g] -= 1;
}

// Segment g goes to the queue's front, and its flag is set. The queued ones move up by one place, into the first zero behind them.
fn enqueue(t: &mut TablesMut<'_>, g: usize)
    requires room { (g < t.old.geo.n) × Room t.old.geo (tables_of t.old) }
    ensures same { Same t.old t.new }
    ensures queued { tables_of t.new ≡ enqueue t.old.geo g (tables_of t.old) }
{
    let k = *t.queued as usize;
    push_front(&mut t.queue[..k + 1], g as u32);
    t.flags[g] = 1;
    *t.queued += 1;
}

// Logical page l is dropped from segment g, where it is mapped; a full segment that is not flagged goes to the queue.
pub fn invalidate(t: &mut TablesMut<'_>, l: LogicalPage, g: usize)
    requires sound { SoundMarksAside t.old }
    requires mapped { Mapped (tables_of t.old) l.0 × (seg_of t.old.geo (word_of (tables_of t.old) l.0) ≡ g) }
    ensures same { Same t.old t.new }
    ensures invalidated { tables_of t.new ≡ invalidate t.old.geo l.0 g (tables_of t.old) }
    ensures any_marks { WithAnyMarks (invalidate t.old.geo l.0 g) t.old t.new }
{
    unlink(t, l, g);
    if t.free[g] == 0 && t.flags[g] == 0 {
        enqueue(t, g);
    }
}

// Where l is mapped, its page is invalidated.
pub fn forget(t: &mut TablesMut<'_>, l: LogicalPage)
    requires sound { SoundMarksAside t.old }
    requires l_lt_e { l.0 < t.old.geo.e }
    ensures same { Same t.old t.new }
    ensures forgotten { tables_of t.new ≡ forget t.old.geo l.0 (tables_of t.old) }
    ensures any_marks { WithAnyMarks (forget t.old.geo l.0) t.old t.new }
{
    let a = PhysicalAddress(t.map[l.0]);
    if a.is_empty() {
        return;
    }
    let g = t.geo.spot_of(a).segment;
    invalidate(t, l, g);
}

// l goes to the end of the segment's list, and is mapped to the page.
pub fn place(t: &mut TablesMut<'_>, l: LogicalPage, spot: Spot)
    requires in_bounds { (l.0 < t.old.geo.e) × (spot.segment < t.old.geo.n) × (spot.page < t.old.geo.p) × (at t.old.lens.now spot.segment < t.old.geo.p) }
    ensures same { Same t.old t.new }
    ensures placed { tables_of t.new ≡ place t.old.geo l.0 spot.segment spot.page (tables_of t.old) }
    ensures any_marks { WithAnyMarks (place t.old.geo l.0 spot.segment spot.page) t.old t.new }
{
    let g = spot.segment;
    let end = g * t.geo.p + t.lens[g] as usize;
    t.map[l.0] = t.geo.address_of(spot).0;
    t.lists[end] = l.0 as u32;
    t.lens[g] += 1;
}

// The old page of l is dropped where it is mapped, and l goes to this page.
pub fn remap(t: &mut TablesMut<'_>, l: LogicalPage, spot: Spot)
    requires sound { SoundMarksAside t.old }
    requires in_bounds { (l.0 < t.old.geo.e) × (spot.segment < t.old.geo.n) × (spot.page < t.old.geo.p) }
    requires room { at t.old.lens.now spot.segment < at t.old.valid.now spot.segment }
    ensures same { Same t.old t.new }
    ensures remapped { tables_of t.new ≡ place t.old.geo l.0 spot.segment spot.page (forget t.old.geo l.0 (tables_of t.old)) }
    ensures any_marks { WithAnyMarks (λ x. place t.old.geo l.0 spot.segment spot.page (forget t.old.geo l.0 x)) t.old t.new }
{
    forget(t, l);
    place(t, l, spot);
}
