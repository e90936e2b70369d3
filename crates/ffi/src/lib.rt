// The public entries and the sizes under C names, for programs in other languages. A geometry is its six numbers, a slice a pointer and a length.
#![tactic(auto)]

ghost use Rattle.std.specs.Prelude.{◌≡◌, [], ◌∷◌};
ghost use Rattle.crc32.specs.Crc32.{crc32};
ghost use Rattle.model.specs.declared.Numbers.TheVariants.{New};
ghost use Rattle.model.specs.declared.Queueing.TheVariants.{Empty, Dead};
ghost use Rattle.model.specs.Numbers.{geometry};
ghost use Rattle.model.specs.Device.{flash};
ghost use Rattle.model.specs.Entry.{recorder, lent, no_flash, Promise, PromiseIn};
ghost use Rattle.model.specs.Entry.{formatting, opening, read, write, collection, list_collection, threshold_collection, encoding, restoring};
ghost use Rattle.sizes.specs.declared.Size.{Size};
ghost use Rattle.sizes.specs.Sizes.{sized};

use model::{Geometry, Numbers, Queueing};
use sizes::Size;

// Every segment erased, counts 0.
#[unsafe(no_mangle)]
pub extern "C" fn shr_format(
    n: usize,
    p: usize,
    s: usize,
    w: usize,
    e: usize,
    limit: usize,
    bytes: &mut [u8],
    marks: &mut [u8],
    counts: &mut [u32],
    fuse: &mut u64,
) -> i64
    ensures { Promise
        (formatting (geometry n p s w e limit)
        (lent (recorder [] [] (flash bytes.old marks.old counts.old fuse.old)) [] []))
        (lent (recorder [] [] (flash bytes.new marks.new counts.new fuse.new)) [] []) result }
{
    let geo = Geometry::of(n, p, s, w, e, limit);
    guard::number(Numbers::Old, ftl::format(geo, bytes, marks, counts, fuse))
}

// Tables emptied.
#[unsafe(no_mangle)]
pub extern "C" fn shr_open(
    n: usize,
    p: usize,
    s: usize,
    w: usize,
    e: usize,
    limit: usize,
    tab: &mut [u32],
    used: &mut [u8],
) -> i64
    ensures { Promise
        (opening (geometry n p s w e limit)
        (lent (recorder tab.old used.old no_flash) [] []))
        (lent (recorder tab.new used.new no_flash) [] []) result }
{
    let geo = Geometry::of(n, p, s, w, e, limit);
    guard::number(Numbers::Old, ftl::open(geo, tab, used))
}

// Bytes at a sector, into the front of out.
#[unsafe(no_mangle)]
pub extern "C" fn shr_read(
    n: usize,
    p: usize,
    s: usize,
    w: usize,
    e: usize,
    limit: usize,
    sector: usize,
    length: usize,
    tab: &[u32],
    used: &[u8],
    bytes: &[u8],
    out: &mut [u8],
    seen: &mut [u8],
) -> i64
    ensures { Promise
        (read (geometry n p s w e limit) sector length
        (lent (recorder tab.now used.now (flash bytes.now [] [] 0)) out.old (seen.old ∷ [])))
        (lent (recorder tab.now used.now (flash bytes.now [] [] 0)) out.new (seen.new ∷ [])) result }
{
    let geo = Geometry::of(n, p, s, w, e, limit);
    let answer = ftl::read(geo, sector, length, tab, used, bytes, out, seen);
    guard::number(Numbers::Old, answer)
}

// Bytes at a sector, within one page.
#[unsafe(no_mangle)]
pub extern "C" fn shr_write(
    n: usize,
    p: usize,
    s: usize,
    w: usize,
    e: usize,
    limit: usize,
    sector: usize,
    len: usize,
    xs: &[u8],
    bad: &[u8],
    tab: &mut [u32],
    used: &mut [u8],
    bytes: &mut [u8],
    marks: &mut [u8],
    counts: &[u32],
    fuse: &mut u64,
    page: &mut [u8],
    seen: &mut [u8],
) -> i64
    ensures { Promise
        (write (geometry n p s w e limit) bad.now sector len xs.now
        (lent (recorder tab.old used.old (flash bytes.old marks.old counts.now fuse.old)) [] (page.old ∷ seen.old ∷ [])))
        (lent (recorder tab.new used.new (flash bytes.new marks.new counts.now fuse.new)) [] (page.new ∷ seen.new ∷ [])) result }
{
    let geo = Geometry::of(n, p, s, w, e, limit);
    let answer = ftl::write(
        geo, sector, len, xs, bad, tab, used, bytes, marks, counts, fuse, page, seen,
    );
    guard::number(Numbers::Old, answer)
}

// One collection.
#[unsafe(no_mangle)]
pub extern "C" fn shr_collect(
    n: usize,
    p: usize,
    s: usize,
    w: usize,
    e: usize,
    limit: usize,
    bad: &[u8],
    tab: &mut [u32],
    used: &mut [u8],
    bytes: &mut [u8],
    marks: &mut [u8],
    counts: &mut [u32],
    fuse: &mut u64,
    page: &mut [u8],
    seen: &mut [u8],
    order: &mut [u32],
) -> i64
    ensures { Promise
        (collection (geometry n p s w e limit) bad.now
        (lent (recorder tab.old used.old (flash bytes.old marks.old counts.old fuse.old)) [] (page.old ∷ seen.old ∷ order.old ∷ [])))
        (lent (recorder tab.new used.new (flash bytes.new marks.new counts.new fuse.new)) [] (page.new ∷ seen.new ∷ order.new ∷ [])) result }
{
    let geo = Geometry::of(n, p, s, w, e, limit);
    let answer = ftl::collect(
        geo, bad, tab, used, bytes, marks, counts, fuse, page, seen, order,
    );
    guard::number(Numbers::Old, answer)
}

// Collections from the list, at most m of them counted.
#[unsafe(no_mangle)]
pub extern "C" fn shr_collect_list(
    n: usize,
    p: usize,
    s: usize,
    w: usize,
    e: usize,
    limit: usize,
    m: usize,
    bad: &[u8],
    tab: &mut [u32],
    used: &mut [u8],
    bytes: &mut [u8],
    marks: &mut [u8],
    counts: &mut [u32],
    fuse: &mut u64,
    page: &mut [u8],
    seen: &mut [u8],
    order: &mut [u32],
) -> i64
    ensures { Promise
        (list_collection (geometry n p s w e limit) bad.now m
        (lent (recorder tab.old used.old (flash bytes.old marks.old counts.old fuse.old)) [] (page.old ∷ seen.old ∷ order.old ∷ [])))
        (lent (recorder tab.new used.new (flash bytes.new marks.new counts.new fuse.new)) [] (page.new ∷ seen.new ∷ order.new ∷ [])) result }
{
    let geo = Geometry::of(n, p, s, w, e, limit);
    let answer = ftl::collect_list(
        geo, m, bad, tab, used, bytes, marks, counts, fuse, page, seen, order,
    );
    guard::number(Numbers::Old, answer)
}

// Collections from the list, unless more pages are free than the threshold.
#[unsafe(no_mangle)]
pub extern "C" fn shr_collect_threshold(
    n: usize,
    p: usize,
    s: usize,
    w: usize,
    e: usize,
    limit: usize,
    threshold: u64,
    m: usize,
    bad: &[u8],
    tab: &mut [u32],
    used: &mut [u8],
    bytes: &mut [u8],
    marks: &mut [u8],
    counts: &mut [u32],
    fuse: &mut u64,
    page: &mut [u8],
    seen: &mut [u8],
    order: &mut [u32],
) -> i64
    ensures { Promise
        (threshold_collection (geometry n p s w e limit) bad.now threshold m
        (lent (recorder tab.old used.old (flash bytes.old marks.old counts.old fuse.old)) [] (page.old ∷ seen.old ∷ order.old ∷ [])))
        (lent (recorder tab.new used.new (flash bytes.new marks.new counts.new fuse.new)) [] (page.new ∷ seen.new ∷ order.new ∷ [])) result }
{
    let geo = Geometry::of(n, p, s, w, e, limit);
    let answer = ftl::collect_threshold(
        geo, threshold, m, bad, tab, used, bytes, marks, counts, fuse, page, seen, order,
    );
    guard::number(Numbers::Old, answer)
}

// The same four in the numbers of 02, M-101: 28 where no segment outside the bad list has room, 121 where the device refuses a copy.
#[unsafe(no_mangle)]
pub extern "C" fn shr_write_told(
    n: usize,
    p: usize,
    s: usize,
    w: usize,
    e: usize,
    limit: usize,
    sector: usize,
    len: usize,
    xs: &[u8],
    bad: &[u8],
    tab: &mut [u32],
    used: &mut [u8],
    bytes: &mut [u8],
    marks: &mut [u8],
    counts: &[u32],
    fuse: &mut u64,
    page: &mut [u8],
    seen: &mut [u8],
) -> i64
    ensures { PromiseIn New
        (write (geometry n p s w e limit) bad.now sector len xs.now
        (lent (recorder tab.old used.old (flash bytes.old marks.old counts.now fuse.old)) [] (page.old ∷ seen.old ∷ [])))
        (lent (recorder tab.new used.new (flash bytes.new marks.new counts.now fuse.new)) [] (page.new ∷ seen.new ∷ [])) result }
{
    let geo = Geometry::of(n, p, s, w, e, limit);
    let answer = ftl::write(
        geo, sector, len, xs, bad, tab, used, bytes, marks, counts, fuse, page, seen,
    );
    guard::number(Numbers::New, answer) // no room is 28
}

#[unsafe(no_mangle)]
pub extern "C" fn shr_collect_told(
    n: usize,
    p: usize,
    s: usize,
    w: usize,
    e: usize,
    limit: usize,
    bad: &[u8],
    tab: &mut [u32],
    used: &mut [u8],
    bytes: &mut [u8],
    marks: &mut [u8],
    counts: &mut [u32],
    fuse: &mut u64,
    page: &mut [u8],
    seen: &mut [u8],
    order: &mut [u32],
) -> i64
    ensures { PromiseIn New
        (collection (geometry n p s w e limit) bad.now
        (lent (recorder tab.old used.old (flash bytes.old marks.old counts.old fuse.old)) [] (page.old ∷ seen.old ∷ order.old ∷ [])))
        (lent (recorder tab.new used.new (flash bytes.new marks.new counts.new fuse.new)) [] (page.new ∷ seen.new ∷ order.new ∷ [])) result }
{
    let geo = Geometry::of(n, p, s, w, e, limit);
    let answer = ftl::collect(
        geo, bad, tab, used, bytes, marks, counts, fuse, page, seen, order,
    );
    guard::number(Numbers::New, answer) // a copy: 28 or 121
}

#[unsafe(no_mangle)]
pub extern "C" fn shr_collect_list_told(
    n: usize,
    p: usize,
    s: usize,
    w: usize,
    e: usize,
    limit: usize,
    m: usize,
    bad: &[u8],
    tab: &mut [u32],
    used: &mut [u8],
    bytes: &mut [u8],
    marks: &mut [u8],
    counts: &mut [u32],
    fuse: &mut u64,
    page: &mut [u8],
    seen: &mut [u8],
    order: &mut [u32],
) -> i64
    ensures { PromiseIn New
        (list_collection (geometry n p s w e limit) bad.now m
        (lent (recorder tab.old used.old (flash bytes.old marks.old counts.old fuse.old)) [] (page.old ∷ seen.old ∷ order.old ∷ [])))
        (lent (recorder tab.new used.new (flash bytes.new marks.new counts.new fuse.new)) [] (page.new ∷ seen.new ∷ order.new ∷ [])) result }
{
    let geo = Geometry::of(n, p, s, w, e, limit);
    let answer = ftl::collect_list(
        geo, m, bad, tab, used, bytes, marks, counts, fuse, page, seen, order,
    );
    guard::number(Numbers::New, answer) // a copy: 28 or 121
}

#[unsafe(no_mangle)]
pub extern "C" fn shr_collect_threshold_told(
    n: usize,
    p: usize,
    s: usize,
    w: usize,
    e: usize,
    limit: usize,
    threshold: u64,
    m: usize,
    bad: &[u8],
    tab: &mut [u32],
    used: &mut [u8],
    bytes: &mut [u8],
    marks: &mut [u8],
    counts: &mut [u32],
    fuse: &mut u64,
    page: &mut [u8],
    seen: &mut [u8],
    order: &mut [u32],
) -> i64
    ensures { PromiseIn New
        (threshold_collection (geometry n p s w e limit) bad.now threshold m
        (lent (recorder tab.old used.old (flash bytes.old marks.old counts.old fuse.old)) [] (page.old ∷ seen.old ∷ order.old ∷ [])))
        (lent (recorder tab.new used.new (flash bytes.new marks.new counts.new fuse.new)) [] (page.new ∷ seen.new ∷ order.new ∷ [])) result }
{
    let geo = Geometry::of(n, p, s, w, e, limit);
    let answer = ftl::collect_threshold(
        geo, threshold, m, bad, tab, used, bytes, marks, counts, fuse, page, seen, order,
    );
    guard::number(Numbers::New, answer) // a copy: 28 or 121
}

// The checkpoint, into the front of the buffer.
#[unsafe(no_mangle)]
pub extern "C" fn shr_encode(
    n: usize,
    p: usize,
    s: usize,
    w: usize,
    e: usize,
    limit: usize,
    tab: &[u32],
    used: &[u8],
    buffer: &mut [u8],
    seen: &mut [u8],
) -> i64
    ensures { Promise
        (encoding (geometry n p s w e limit)
        (lent (recorder tab.now used.now no_flash) buffer.old (seen.old ∷ [])))
        (lent (recorder tab.now used.now no_flash) buffer.new (seen.new ∷ [])) result }
{
    let geo = Geometry::of(n, p, s, w, e, limit);
    guard::number(Numbers::Old, ftl::encode(geo, tab, used, buffer, seen))
}

// The tables of a checkpoint, the queue empty: the old choice.
#[unsafe(no_mangle)]
pub extern "C" fn shr_restore(
    n: usize,
    p: usize,
    s: usize,
    w: usize,
    e: usize,
    limit: usize,
    file: &[u8],
    tab: &mut [u32],
    used: &mut [u8],
    taken: &mut [u8],
) -> i64
    ensures { Promise
        (restoring (geometry n p s w e limit) Empty file.now
        (lent (recorder tab.old used.old no_flash) [] (taken.old ∷ [])))
        (lent (recorder tab.new used.new no_flash) [] (taken.new ∷ [])) result }
{
    let geo = Geometry::of(n, p, s, w, e, limit);
    let answer = ftl::restore(geo, Queueing::Empty, file, tab, used, taken);
    guard::number(Numbers::Old, answer)
}

// The same with each segment queued that has free count 0 and a list shorter than p (02, M-109).
#[unsafe(no_mangle)]
pub extern "C" fn shr_restore_dead(
    n: usize,
    p: usize,
    s: usize,
    w: usize,
    e: usize,
    limit: usize,
    file: &[u8],
    tab: &mut [u32],
    used: &mut [u8],
    taken: &mut [u8],
) -> i64
    ensures { Promise
        (restoring (geometry n p s w e limit) Dead file.now
        (lent (recorder tab.old used.old no_flash) [] (taken.old ∷ [])))
        (lent (recorder tab.new used.new no_flash) [] (taken.new ∷ [])) result }
{
    let geo = Geometry::of(n, p, s, w, e, limit);
    let answer = ftl::restore(geo, Queueing::Dead, file, tab, used, taken);
    guard::number(Numbers::Old, answer)
}

// The sizes of all that is lent; 0 for a geometry that is refused.
#[unsafe(no_mangle)]
pub extern "C" fn shr_tab_words(
    n: usize,
    p: usize,
    s: usize,
    w: usize,
    e: usize,
    limit: usize,
) -> usize
    ensures { result ≡ sized (geometry n p s w e limit) Size.TabWords }
{
    let geo = Geometry::of(n, p, s, w, e, limit);
    sizes::sized(geo, Size::TabWords)
}

#[unsafe(no_mangle)]
pub extern "C" fn shr_used_bytes(
    n: usize,
    p: usize,
    s: usize,
    w: usize,
    e: usize,
    limit: usize,
) -> usize
    ensures { result ≡ sized (geometry n p s w e limit) Size.UsedBytes }
{
    let geo = Geometry::of(n, p, s, w, e, limit);
    sizes::sized(geo, Size::UsedBytes)
}

#[unsafe(no_mangle)]
pub extern "C" fn shr_flash_bytes(
    n: usize,
    p: usize,
    s: usize,
    w: usize,
    e: usize,
    limit: usize,
) -> usize
    ensures { result ≡ sized (geometry n p s w e limit) Size.FlashBytes }
{
    let geo = Geometry::of(n, p, s, w, e, limit);
    sizes::sized(geo, Size::FlashBytes)
}

#[unsafe(no_mangle)]
pub extern "C" fn shr_mark_bytes(
    n: usize,
    p: usize,
    s: usize,
    w: usize,
    e: usize,
    limit: usize,
) -> usize
    ensures { result ≡ sized (geometry n p s w e limit) Size.MarkBytes }
{
    let geo = Geometry::of(n, p, s, w, e, limit);
    sizes::sized(geo, Size::MarkBytes)
}

#[unsafe(no_mangle)]
pub extern "C" fn shr_count_words(
    n: usize,
    p: usize,
    s: usize,
    w: usize,
    e: usize,
    limit: usize,
) -> usize
    ensures { result ≡ sized (geometry n p s w e limit) Size.CountWords }
{
    let geo = Geometry::of(n, p, s, w, e, limit);
    sizes::sized(geo, Size::CountWords)
}

#[unsafe(no_mangle)]
pub extern "C" fn shr_bad_bytes(
    n: usize,
    p: usize,
    s: usize,
    w: usize,
    e: usize,
    limit: usize,
) -> usize
    ensures { result ≡ sized (geometry n p s w e limit) Size.BadBytes }
{
    let geo = Geometry::of(n, p, s, w, e, limit);
    sizes::sized(geo, Size::BadBytes)
}

#[unsafe(no_mangle)]
pub extern "C" fn shr_page_bytes(
    n: usize,
    p: usize,
    s: usize,
    w: usize,
    e: usize,
    limit: usize,
) -> usize
    ensures { result ≡ sized (geometry n p s w e limit) Size.PageBytes }
{
    let geo = Geometry::of(n, p, s, w, e, limit);
    sizes::sized(geo, Size::PageBytes)
}

#[unsafe(no_mangle)]
pub extern "C" fn shr_seen_bytes(
    n: usize,
    p: usize,
    s: usize,
    w: usize,
    e: usize,
    limit: usize,
) -> usize
    ensures { result ≡ sized (geometry n p s w e limit) Size.SeenBytes }
{
    let geo = Geometry::of(n, p, s, w, e, limit);
    sizes::sized(geo, Size::SeenBytes)
}

#[unsafe(no_mangle)]
pub extern "C" fn shr_order_words(
    n: usize,
    p: usize,
    s: usize,
    w: usize,
    e: usize,
    limit: usize,
) -> usize
    ensures { result ≡ sized (geometry n p s w e limit) Size.OrderWords }
{
    let geo = Geometry::of(n, p, s, w, e, limit);
    sizes::sized(geo, Size::OrderWords)
}

#[unsafe(no_mangle)]
pub extern "C" fn shr_taken_bytes(
    n: usize,
    p: usize,
    s: usize,
    w: usize,
    e: usize,
    limit: usize,
) -> usize
    ensures { result ≡ sized (geometry n p s w e limit) Size.TakenBytes }
{
    let geo = Geometry::of(n, p, s, w, e, limit);
    sizes::sized(geo, Size::TakenBytes)
}

#[unsafe(no_mangle)]
pub extern "C" fn shr_checkpoint_bytes(
    n: usize,
    p: usize,
    s: usize,
    w: usize,
    e: usize,
    limit: usize,
) -> usize
    ensures { result ≡ sized (geometry n p s w e limit) Size.CheckpointBytes }
{
    let geo = Geometry::of(n, p, s, w, e, limit);
    sizes::sized(geo, Size::CheckpointBytes)
}

// The CRC-32 of IEEE 802.3.
#[unsafe(no_mangle)]
pub extern "C" fn shr_crc32(xs: &[u8]) -> u32
    ensures { result ≡ crc32 xs.now }
{
    crc32::checksum(xs)
}
