// Step 4 of document 01: a page is found, built, spent and programmed; then the logical page is mapped to it. Tables and flash are lent one by one: in
// one struct was tried, and of a struct in a struct the proof forgets what its references end as.
#![tactic(auto)]

ghost use Rattle.std.specs.Prelude.{◌≡◌, List, ℕ, ◌+◌, ◌<◌, ◌≤◌, length};
ghost use Rattle.model.specs.Lists.{splice, zeros};
ghost use Rattle.model.specs.Tables.{pages};
ghost use Rattle.model.specs.Sound.{Sound};
ghost use Rattle.model.specs.Device.{state};
ghost use Rattle.model.specs.Contract.{Done};
ghost use Rattle.model.specs.PageMap.{find};
ghost use Rattle.model.specs.PageWrite.{old_page, write_page};
ghost use Rattle.tables.specs.Parts.{tables_of, Same};
ghost use Rattle.device.specs.Lent.{flash_of, Same as SameFlash};

use device::FlashMut;
use model::{Answer, Cause, LogicalPage, PhysicalAddress, Spot};
use tables::TablesMut;

// "build s zero bytes, or the old page where mapped", and "lay the caller's bytes in": the page is lent zero.
fn build_page(
    t: &TablesMut<'_>,
    f: &FlashMut<'_>,
    l: LogicalPage,
    off: usize,
    xs: &[u8],
    page: &mut [u8],
)
    requires one_geometry { f.now.geo ≡ t.now.geo }
    requires sound { Sound t.now.geo (tables_of t.now) }
    requires lent { page.old ≡ zeros t.now.geo.s }
    requires in_page { (l.0 < t.now.geo.e) × (off + length xs.now ≤ t.now.geo.s) }
    ensures { (c : List ℕ) → page.new ≡ splice off xs.now (old_page t.now.geo (state (tables_of t.now) (flash_of f.now c)) l.0) }
{
    let a = PhysicalAddress(t.map[l.0]);
    if !a.is_empty() {
        f.read_page(t.geo.spot_of(a), page);
    }
    page[off..off + xs.len()].copy_from_slice(xs);
}

// The page that is found: the search is lent the allocation segment and the free counts, to look at.
fn found(t: &TablesMut<'_>, bad: &[u8]) -> Option<Spot>
    requires sound { Sound t.now.geo (tables_of t.now) }
    requires bad_len { length bad.now ≡ t.now.geo.n }
    ensures { result ≡ find t.now.geo bad.now (tables_of t.now) }
{
    page_map::find_page(t.geo, bad, *t.alloc, t.free)
}

// The bytes xs at offset off of logical page l. The scratch for a page is handed back zero on every way out.
pub fn write_page(
    t: &mut TablesMut<'_>,
    f: &mut FlashMut<'_>,
    l: LogicalPage,
    off: usize,
    xs: &[u8],
    bad: &[u8],
    page: &mut [u8],
) -> Answer
    requires one_geometry { f.old.geo ≡ t.old.geo }
    requires marks { length t.old.used.now ≡ pages t.old.geo }
    requires sound { Sound t.old.geo (tables_of t.old) }
    requires lent { (length bad.now ≡ t.old.geo.n) × (page.old ≡ zeros t.old.geo.s) }
    requires in_page { (l.0 < t.old.geo.e) × (off + length xs.now ≤ t.old.geo.s) }
    ensures same { Same t.old t.new }
    ensures same_flash { SameFlash f.old f.new }
    ensures done { (c : List ℕ) → Done
        (write_page t.old.geo bad.now l.0 off xs.now (state (tables_of t.old) (flash_of f.old c)))
        result (state (tables_of t.new) (flash_of f.new c)) }
    ensures marks { length t.new.used.now ≡ pages t.new.geo }
    ensures clean { page.new ≡ zeros t.old.geo.s }
{
    let at = found(t, bad).ok_or(Cause::NoRoom)?;
    build_page(t, f, l, off, xs, page);
    page_map::spend(t, at);
    let done = f.program(at, page);
    page.fill(0);
    done?;
    page_map::remap(t, l, at);
    Ok(xs.len())
}
