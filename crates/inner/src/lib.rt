// The inner write, the inner collection and the soundness test under C names, for the bench alone. They ask of their callers what those ask, and
// test nothing: they are no part of the library.
#![tactic(auto)]

ghost use Rattle.std.specs.Prelude.{◌≡◌, ◌+◌, ◌/◌, ◌%◌, ◌<◌, ◌≤◌, length};
ghost use Rattle.model.specs.Lists.{zeros};
ghost use Rattle.model.specs.Numbers.{Good, geometry};
ghost use Rattle.model.specs.Tables.{pages, tab_words};
ghost use Rattle.model.specs.Entry.{seen_scratch};
ghost use Rattle.model.specs.Contract.{Held, Ready};

use ftl::calls::{Collecting, Passes, Writing};
use model::{Geometry, LogicalPage};
use tables::packed::on_packed;

// What stands for a refusal; else the answer is the bytes moved.
const REFUSED: usize = usize::MAX;

#[unsafe(no_mangle)]
pub extern "C" fn shr_inner_write(
    n: usize,
    p: usize,
    s: usize,
    w: usize,
    e: usize,
    limit: usize,
    sector: usize,
    len: usize,
    xs: &[u8],
    bad: &[u8],
    tab: &mut [u32],
    used: &mut [u8],
    bytes: &mut [u8],
    marks: &mut [u8],
    counts: &[u32],
    fuse: &mut u64,
    page: &mut [u8],
    seen: &[u8],
) -> usize
    requires held { Held (geometry n p s w e limit) tab.old used.old }
    requires ready { Ready (geometry n p s w e limit) bad.now page.old bytes.old marks.old }
    requires s_nonzero { (0 < s) × (sector / s < e) × (sector % s + length xs.now ≤ s) }
{
    let geo = Geometry::of(n, p, s, w, e, limit);
    let mut write = Writing {
        bytes,
        marks,
        fuse,
        l: LogicalPage(sector / s),
        off: sector % s,
        xs,
        bad,
        page,
    };
    on_packed(geo, tab, used, &mut write).unwrap_or(REFUSED)
}

#[unsafe(no_mangle)]
pub extern "C" fn shr_inner_collect(
    n: usize,
    p: usize,
    s: usize,
    w: usize,
    e: usize,
    limit: usize,
    bad: &[u8],
    tab: &mut [u32],
    used: &mut [u8],
    bytes: &mut [u8],
    marks: &mut [u8],
    counts: &mut [u32],
    fuse: &mut u64,
    page: &mut [u8],
    seen: &[u8],
    order: &mut [u32],
) -> usize
    requires held { Held (geometry n p s w e limit) tab.old used.old }
    requires ready { Ready (geometry n p s w e limit) bad.now page.old bytes.old marks.old }
    requires counts_len { (length counts.old ≡ n) × (order.old ≡ zeros n) }
{
    let geo = Geometry::of(n, p, s, w, e, limit);
    let mut collection = Collecting {
        passes: Passes::One,
        bytes,
        marks,
        fuse,
        counts,
        bad,
        page,
        order,
    };
    on_packed(geo, tab, used, &mut collection).unwrap_or(REFUSED)
}

#[unsafe(no_mangle)]
pub extern "C" fn shr_sound(
    n: usize,
    p: usize,
    s: usize,
    w: usize,
    e: usize,
    limit: usize,
    tab: &[u32],
    used: &[u8],
    seen: &mut [u8],
) -> bool
    requires good { Good (geometry n p s w e limit) }
    requires tab_len { (length tab.now ≡ tab_words (geometry n p s w e limit)) × (length used.now ≡ pages (geometry n p s w e limit)) × (seen.old ≡ zeros (seen_scratch (geometry n p s w e limit))) }
{
    let geo = Geometry::of(n, p, s, w, e, limit);
    sound::sound(geo, tab, used, seen)
}
