// Step 5 of document 01 and the threshold of step 6: a victim is taken, drained, erased and reset. Flash, counts, bad list and scratch are lent one by
// one: in one struct was tried, and of a struct in a struct the proof forgets what its references end as.
#![tactic(auto)]

ghost use Rattle.std.specs.Prelude.{◌≡◌, List, ℕ, ◌<◌, length};
ghost use Rattle.model.specs.Lists.{zeros, total};
ghost use Rattle.model.specs.Tables.{at, pages};
ghost use Rattle.model.specs.Sound.{Sound};
ghost use Rattle.model.specs.Device.{state};
ghost use Rattle.model.specs.Contract.{Done};
ghost use Rattle.model.specs.PageGc.{of_copy, reset, unflag, drain, collect, collect_more, collect_threshold};
ghost use Rattle.tables.specs.Parts.{tables_of, Same};
ghost use Rattle.device.specs.Lent.{flash_of, Same as SameFlash};

use device::FlashMut;
use model::{Answer, Cause};
use tables::TablesMut;

// "a copy gets 14 or 5": whether for room or at the device is passed on, told apart from a write's. No `From`: a cause becomes another cause, as the
// definition of this name has it.
fn of_copy(c: Cause) -> Cause
    ensures { result ≡ of_copy c }
{
    match c {
        Cause::NoRoom => Cause::CopyNoRoom,
        Cause::Device => Cause::CopyDevice,
        other => other,
    }
}

// "While the victim's list is not empty, its last logical page is read whole and written whole": a write of no bytes does both. A list has at most p
// pages, and p turns are the definition's own bound.
fn drain(
    t: &mut TablesMut<'_>,
    f: &mut FlashMut<'_>,
    v: usize,
    bad: &[u8],
    page: &mut [u8],
) -> Answer
    requires one_geometry { f.old.geo ≡ t.old.geo }
    requires marks { length t.old.used.now ≡ pages t.old.geo }
    requires sound { Sound t.old.geo (tables_of t.old) }
    requires lent { (length bad.now ≡ t.old.geo.n) × (page.old ≡ zeros t.old.geo.s) }
    requires victim { (v < t.old.geo.n) × (at t.old.free.now v ≡ 0) × (at t.old.flags.now v ≡ 1) }
    ensures same { Same t.old t.new }
    ensures same_flash { SameFlash f.old f.new }
    ensures done { (c : List ℕ) → Done
        (drain t.old.geo bad.now t.old.geo.p v (state (tables_of t.old) (flash_of f.old c)))
        result (state (tables_of t.new) (flash_of f.new c)) }
    ensures marks { length t.new.used.now ≡ pages t.new.geo }
    ensures sound { Sound t.new.geo (tables_of t.new) }
    ensures clean { page.new ≡ zeros t.old.geo.s }
{
    for _ in 0..t.geo.p {
        if t.lens[v] == 0 {
            return Ok(0);
        }
        let l = page_map::last_listed(t, v);
        page_write::write_page(t, f, l, 0, b"", bad, page).map_err(of_copy)?;
    }
    Ok(0)
}

// "reset the record, clear the flag": free and valid count, as a record lent alone; use marks and list of segment v.
fn reset_segment(t: &mut TablesMut<'_>, v: usize)
    requires { (v < t.old.geo.n) × (length t.old.used.now ≡ pages t.old.geo) }
    ensures same { Same t.old t.new }
    ensures reset { tables_of t.new ≡ unflag t.old.geo v (reset t.old.geo v (tables_of t.old)) }
{
    let start = v * t.geo.p;
    let end = start + t.geo.p;
    t.used[start..end].fill(0);
    t.lists[start..end].fill(0);
    let record = segment::reset_record(t.free[v], t.valid[v], t.geo.p as u32);
    t.free[v] = record.free;
    t.valid[v] = record.valid;
    t.lens[v] = 0;
    t.flags[v] = 0;
}

// One collection.
pub fn collect(
    t: &mut TablesMut<'_>,
    f: &mut FlashMut<'_>,
    counts: &mut [u32],
    bad: &[u8],
    page: &mut [u8],
    order: &mut [u32],
) -> Answer
    requires one_geometry { f.old.geo ≡ t.old.geo }
    requires marks { length t.old.used.now ≡ pages t.old.geo }
    requires sound { Sound t.old.geo (tables_of t.old) }
    requires lent { (length bad.now ≡ t.old.geo.n) × (page.old ≡ zeros t.old.geo.s) }
    requires counts_len { (length counts.old ≡ t.old.geo.n) × (order.old ≡ zeros t.old.geo.n) }
    ensures same { Same t.old t.new }
    ensures same_flash { SameFlash f.old f.new }
    ensures done { Done
        (collect t.old.geo bad.now (state (tables_of t.old) (flash_of f.old counts.old)))
        result (state (tables_of t.new) (flash_of f.new counts.new)) }
    ensures marks { length t.new.used.now ≡ pages t.new.geo }
    ensures sound { Sound t.new.geo (tables_of t.new) }
    ensures clean { (page.new ≡ zeros t.old.geo.s) × (order.new ≡ zeros t.old.geo.n) }
{
    if *t.queued == 0 {
        return Ok(0);
    }
    let v = queue::take(t, order);
    drain(t, f, v, bad, page)?;
    f.erase(v, counts)?;
    reset_segment(t, v);
    Ok(0)
}

// Collections from the list, until m are counted or the queue is empty.
pub fn collect_list(
    t: &mut TablesMut<'_>,
    f: &mut FlashMut<'_>,
    counts: &mut [u32],
    m: usize,
    bad: &[u8],
    page: &mut [u8],
    order: &mut [u32],
) -> Answer
    requires one_geometry { f.old.geo ≡ t.old.geo }
    requires marks { length t.old.used.now ≡ pages t.old.geo }
    requires sound { Sound t.old.geo (tables_of t.old) }
    requires lent { (length bad.now ≡ t.old.geo.n) × (page.old ≡ zeros t.old.geo.s) }
    requires counts_len { (length counts.old ≡ t.old.geo.n) × (order.old ≡ zeros t.old.geo.n) }
    ensures same { Same t.old t.new }
    ensures same_flash { SameFlash f.old f.new }
    ensures done { Done
        (collect_more t.old.geo bad.now m 0 (state (tables_of t.old) (flash_of f.old counts.old)))
        result (state (tables_of t.new) (flash_of f.new counts.new)) }
    ensures marks { length t.new.used.now ≡ pages t.new.geo }
    ensures clean { (page.new ≡ zeros t.old.geo.s) × (order.new ≡ zeros t.old.geo.n) }
{
    for k in 0..m {
        collect(t, f, counts, bad, page, order)?;
        if *t.queued == 0 {
            return Ok(k);
        }
    }
    Ok(m)
}

// "total free (all segments)"
fn total_free(t: &TablesMut<'_>) -> u64
    ensures { result ≡ total t.now.free.now }
{
    sound::total32(t.free)
}

// Nothing while total free is above the threshold, else from the list.
pub fn collect_threshold(
    t: &mut TablesMut<'_>,
    f: &mut FlashMut<'_>,
    counts: &mut [u32],
    threshold: u64,
    m: usize,
    bad: &[u8],
    page: &mut [u8],
    order: &mut [u32],
) -> Answer
    requires one_geometry { f.old.geo ≡ t.old.geo }
    requires marks { length t.old.used.now ≡ pages t.old.geo }
    requires sound { Sound t.old.geo (tables_of t.old) }
    requires lent { (length bad.now ≡ t.old.geo.n) × (page.old ≡ zeros t.old.geo.s) }
    requires counts_len { (length counts.old ≡ t.old.geo.n) × (order.old ≡ zeros t.old.geo.n) }
    ensures same { Same t.old t.new }
    ensures same_flash { SameFlash f.old f.new }
    ensures done { Done
        (collect_threshold t.old.geo bad.now threshold m (state (tables_of t.old) (flash_of f.old counts.old)))
        result (state (tables_of t.new) (flash_of f.new counts.new)) }
    ensures marks { length t.new.used.now ≡ pages t.new.geo }
    ensures clean { (page.new ≡ zeros t.old.geo.s) × (order.new ≡ zeros t.old.geo.n) }
{
    if threshold < total_free(t) {
        return Ok(0);
    }
    collect_list(t, f, counts, m, bad, page, order)
}
