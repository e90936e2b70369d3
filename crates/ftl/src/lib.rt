// The public entries. Each tests all that it is lent, in document 01's order, and then does its deed. No entry asks anything of its caller. They are lent
// what the C names are lent, slice by slice; the deeds take tables and flash as they are once the tests have passed.
#![tactic(auto)]

ghost use Rattle.std.specs.Prelude.{◌≡◌, ℕ, [], ◌∷◌, ◌+◌, ◌*◌, ◌<◌, ◌≤◌, leb, length, take, drop};
ghost use Rattle.guard.specs.Countable.{Countable};
ghost use Rattle.model.specs.Lists.{every, slot, splice};
ghost use Rattle.model.specs.Numbers.{Good, flat};
ghost use Rattle.model.specs.Tables.{pages, view};
ghost use Rattle.model.specs.Sound.{soundb};
ghost use Rattle.model.specs.Device.{flash, state};
ghost use Rattle.model.specs.Checkpoint.{file_size};
ghost use Rattle.model.specs.Entry.{recorder, lent, no_flash, Answered, tables_fit, clean, all_fits, page_scratch, seen_scratch};
ghost use Rattle.model.specs.Entry.{formatting, opening, read, write, collecting, collection, list_collection, threshold_collection, encoding, restoring};
ghost use Rattle.ftl.specs.Tests.{tested, within};
ghost use Rattle.ftl.specs.Calls.{Same, flash_with, lent_with, passes_of};

use device::FlashMut;
use model::{Answer, Cause, Geometry, LogicalPage, PhysicalAddress, Queueing};
use tables::packed::on_packed;

pub mod calls;

use calls::{Collecting, Opening, Passes, Restoring, Writing};

// "Formatting erases every segment, whatever its count, sets counts to 0 and answers 0; it tests geometry and sizes only."
pub fn format(
    geo: Geometry,
    bytes: &mut [u8],
    marks: &mut [u8],
    counts: &mut [u32],
    fuse: &mut u64,
) -> Answer
    ensures answered { Answered
        (formatting geo (lent (recorder [] [] (flash bytes.old marks.old counts.old fuse.old)) [] []))
        (lent (recorder [] [] (flash bytes.new marks.new counts.new fuse.new)) [] []) result }
    ensures countable { Countable result }
{
    if !sound::good(geo) || !guard::flash_fits(geo, bytes, marks, counts) {
        return Err(Cause::Wrong);
    }
    let mut flash = FlashMut {
        geo,
        bytes,
        marks,
        fuse,
    };
    flash.format(counts);
    Ok(0)
}

// "Opening answers 0, empties map, lists and queue, clears marks and flags, valid 0, free p; an allocation segment >= n becomes 0."
pub fn open(geo: Geometry, tab: &mut [u32], used: &mut [u8]) -> Answer
    ensures answered { Answered
        (opening geo (lent (recorder tab.old used.old no_flash) [] []))
        (lent (recorder tab.new used.new no_flash) [] []) result }
    ensures countable { Countable result }
{
    if !sound::good(geo) || !guard::tables_fit(geo, tab, used) {
        return Err(Cause::Wrong);
    }
    on_packed(geo, tab, used, &mut Opening)
}

// The bytes of the page at address a from the offset on, laid into the buffer's front.
fn show(geo: Geometry, a: PhysicalAddress, off: usize, len: usize, bytes: &[u8], out: &mut [u8])
    requires good { Good geo }
    requires a_bound { (flat geo a.0 < pages geo) × (off + len ≤ geo.s) × (length bytes.now ≡ pages geo * geo.s) × (len ≤ length out.old) }
    ensures { out.new ≡ splice 0 (take len (drop off (slot geo.s (flat geo a.0) bytes.now))) out.old }
{
    let at = geo.spot_of(a);
    let start = (at.segment * geo.p + at.page) * geo.s + off;
    out[..len].copy_from_slice(&bytes[start..start + len]);
}

// The logical page of a sector and the offset in it, where the length lies within that page.
fn within_page(geo: Geometry, sector: usize, len: usize) -> Result<(LogicalPage, usize), Cause>
    requires { Good geo }
    ensures { result ≡ within geo sector len }
{
    let l = sector / geo.s;
    if l >= geo.e {
        return Err(Cause::Wrong);
    }
    let off = sector % geo.s;
    if len > geo.s - off {
        return Err(Cause::Wrong);
    }
    Ok((LogicalPage(l), off))
}

// "bytes at the offset of the mapped page"; bytes of the buffer beyond the length stay.
pub fn read(
    geo: Geometry,
    sector: usize,
    len: usize,
    tab: &[u32],
    used: &[u8],
    bytes: &[u8],
    out: &mut [u8],
    seen: &mut [u8],
) -> Answer
    ensures answered { Answered
        (read geo sector len (lent (recorder tab.now used.now (flash bytes.now [] [] 0)) out.old (seen.old ∷ [])))
        (lent (recorder tab.now used.now (flash bytes.now [] [] 0)) out.new (seen.new ∷ [])) result }
    ensures countable { Countable result }
{
    if !sound::good(geo) || !guard::read_fits(geo, len, tab, used, bytes, out, seen) {
        return Err(Cause::Wrong);
    }
    if !sound::sound(geo, tab, used, seen) {
        return Err(Cause::Unsound);
    }
    let (l, off) = within_page(geo, sector, len)?;
    let a = PhysicalAddress(tab[l.0]);
    if a.is_empty() {
        return Err(Cause::Unmapped);
    }
    show(geo, a, off, len, bytes, out);
    Ok(len)
}

// Bytes at a sector, within one page.
pub fn write(
    geo: Geometry,
    sector: usize,
    len: usize,
    xs: &[u8],
    bad: &[u8],
    tab: &mut [u32],
    used: &mut [u8],
    bytes: &mut [u8],
    marks: &mut [u8],
    counts: &[u32],
    fuse: &mut u64,
    page: &mut [u8],
    seen: &mut [u8],
) -> Answer
    ensures answered { Answered
        (write geo bad.now sector len xs.now
        (lent (recorder tab.old used.old (flash bytes.old marks.old counts.now fuse.old)) [] (page.old ∷ seen.old ∷ [])))
        (lent (recorder tab.new used.new (flash bytes.new marks.new counts.now fuse.new)) [] (page.new ∷ seen.new ∷ [])) result }
    ensures countable { Countable result }
{
    if !sound::good(geo)
        || !guard::all_fit(geo, bad, tab, used, bytes, marks, counts, page, seen)
        || xs.len() < len
    {
        return Err(Cause::Wrong);
    }
    if !sound::sound(geo, tab, used, seen) {
        return Err(Cause::Unsound);
    }
    let (l, off) = within_page(geo, sector, len)?;
    let mut deed = Writing {
        bytes,
        marks,
        fuse,
        l,
        off,
        xs: &xs[..len],
        bad,
        page,
    };
    on_packed(geo, tab, used, &mut deed)
}

// What a collection tests: geometry, sizes and scratch, and soundness.
fn collection_tests(
    geo: Geometry,
    tab: &[u32],
    used: &[u8],
    seen: &mut [u8],
    deed: &Collecting<'_>,
) -> Result<(), Cause>
    ensures tested { result ≡ tested
        (all_fits geo deed.now.bad.now (page_scratch geo ∷ seen_scratch geo ∷ geo.n ∷ []) (lent_with deed.now tab.now used.now seen.old))
        (soundb geo (view geo tab.now used.now)) }
    ensures seen_unchanged { seen.new ≡ seen.old }
{
    if !sound::good(geo)
        || !guard::all_fit(
            geo,
            deed.bad,
            tab,
            used,
            deed.bytes,
            deed.marks,
            deed.counts,
            deed.page,
            seen,
        )
        || !guard::clean_words(deed.order, geo.n)
    {
        return Err(Cause::Wrong);
    }
    if !sound::sound(geo, tab, used, seen) {
        return Err(Cause::Unsound);
    }
    Ok(())
}

// The collections, by the passes that they make.
fn collect_by(
    geo: Geometry,
    tab: &mut [u32],
    used: &mut [u8],
    seen: &mut [u8],
    deed: &mut Collecting<'_>,
) -> Answer
    ensures answered { Answered
        (collecting geo deed.old.bad.now (lent_with deed.old tab.old used.old seen.old)
        (passes_of geo deed.old.bad.now deed.old.passes (state (view geo tab.old used.old) (flash_with deed.old))))
        (lent_with deed.new tab.new used.new seen.new) result }
    ensures same { Same deed.old deed.new }
    ensures countable { Countable result }
{
    collection_tests(geo, tab, used, seen, deed)?;
    on_packed(geo, tab, used, deed)
}

// One collection.
pub fn collect(
    geo: Geometry,
    bad: &[u8],
    tab: &mut [u32],
    used: &mut [u8],
    bytes: &mut [u8],
    marks: &mut [u8],
    counts: &mut [u32],
    fuse: &mut u64,
    page: &mut [u8],
    seen: &mut [u8],
    order: &mut [u32],
) -> Answer
    ensures answered { Answered
        (collection geo bad.now
        (lent (recorder tab.old used.old (flash bytes.old marks.old counts.old fuse.old)) [] (page.old ∷ seen.old ∷ order.old ∷ [])))
        (lent (recorder tab.new used.new (flash bytes.new marks.new counts.new fuse.new)) [] (page.new ∷ seen.new ∷ order.new ∷ [])) result }
    ensures countable { Countable result }
{
    let mut deed = Collecting {
        passes: Passes::One,
        bytes,
        marks,
        fuse,
        counts,
        bad,
        page,
        order,
    };
    collect_by(geo, tab, used, seen, &mut deed)
}

// Collections from the list, at most m of them counted.
pub fn collect_list(
    geo: Geometry,
    m: usize,
    bad: &[u8],
    tab: &mut [u32],
    used: &mut [u8],
    bytes: &mut [u8],
    marks: &mut [u8],
    counts: &mut [u32],
    fuse: &mut u64,
    page: &mut [u8],
    seen: &mut [u8],
    order: &mut [u32],
) -> Answer
    ensures answered { Answered
        (list_collection geo bad.now m
        (lent (recorder tab.old used.old (flash bytes.old marks.old counts.old fuse.old)) [] (page.old ∷ seen.old ∷ order.old ∷ [])))
        (lent (recorder tab.new used.new (flash bytes.new marks.new counts.new fuse.new)) [] (page.new ∷ seen.new ∷ order.new ∷ [])) result }
    ensures countable { Countable result }
{
    let mut deed = Collecting {
        passes: Passes::List(m),
        bytes,
        marks,
        fuse,
        counts,
        bad,
        page,
        order,
    };
    collect_by(geo, tab, used, seen, &mut deed)
}

// Collections from the list, unless more pages are free than the threshold.
pub fn collect_threshold(
    geo: Geometry,
    threshold: u64,
    m: usize,
    bad: &[u8],
    tab: &mut [u32],
    used: &mut [u8],
    bytes: &mut [u8],
    marks: &mut [u8],
    counts: &mut [u32],
    fuse: &mut u64,
    page: &mut [u8],
    seen: &mut [u8],
    order: &mut [u32],
) -> Answer
    ensures answered { Answered
        (threshold_collection geo bad.now threshold m
        (lent (recorder tab.old used.old (flash bytes.old marks.old counts.old fuse.old)) [] (page.old ∷ seen.old ∷ order.old ∷ [])))
        (lent (recorder tab.new used.new (flash bytes.new marks.new counts.new fuse.new)) [] (page.new ∷ seen.new ∷ order.new ∷ [])) result }
    ensures countable { Countable result }
{
    let mut deed = Collecting {
        passes: Passes::Threshold(threshold, m),
        bytes,
        marks,
        fuse,
        counts,
        bad,
        page,
        order,
    };
    collect_by(geo, tab, used, seen, &mut deed)
}

// What encoding tests beside the geometry: the tables, the buffer, and scratch for the soundness test.
fn encode_fits(geo: Geometry, tab: &[u32], used: &[u8], buffer: &[u8], seen: &[u8]) -> bool
    requires { Good geo }
    ensures { result ≡ every
        (tables_fit geo (lent (recorder tab.now used.now no_flash) [] [])
        ∷ leb (file_size geo) (length buffer.now)
        ∷ clean (seen_scratch geo ∷ []) (seen.now ∷ [])
        ∷ []) }
{
    if !guard::tables_fit(geo, tab, used) {
        return false;
    }
    if buffer.len() < checkpoint::file_size(geo) {
        return false;
    }
    guard::clean(seen, geo.n + geo.p)
}

// Encoding: the first 44 + 4e + 4n bytes of the buffer are the checkpoint's file.
pub fn encode(geo: Geometry, tab: &[u32], used: &[u8], buffer: &mut [u8], seen: &mut [u8]) -> Answer
    ensures answered { Answered
        (encoding geo (lent (recorder tab.now used.now no_flash) buffer.old (seen.old ∷ [])))
        (lent (recorder tab.now used.now no_flash) buffer.new (seen.new ∷ [])) result }
    ensures countable { Countable result }
{
    if !sound::good(geo) || !encode_fits(geo, tab, used, buffer, seen) {
        return Err(Cause::Wrong);
    }
    if !sound::sound(geo, tab, used, seen) {
        return Err(Cause::Unsound);
    }
    checkpoint::encode(geo, tab, buffer);
    Ok(checkpoint::file_size(geo))
}

// Restoring: the nine reasons first, then the tables are those of the file, with the queue that was chosen.
pub fn restore(
    geo: Geometry,
    queueing: Queueing,
    file: &[u8],
    tab: &mut [u32],
    used: &mut [u8],
    taken: &mut [u8],
) -> Answer
    ensures answered { Answered
        (restoring geo queueing file.now (lent (recorder tab.old used.old no_flash) [] (taken.old ∷ [])))
        (lent (recorder tab.new used.new no_flash) [] (taken.new ∷ [])) result }
    ensures countable { Countable result }
{
    if !sound::good(geo) || !guard::restore_fits(geo, tab, used, taken) {
        return Err(Cause::Wrong);
    }
    checkpoint::check(geo, file)?;
    let mut deed = Restoring {
        queueing,
        file,
        taken,
    };
    on_packed(geo, tab, used, &mut deed)
}
