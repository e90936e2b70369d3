// What the public entries test first, and the number of an answer. The entries are lent slice by slice, as the C names are, so these functions are too,
// and their clause is a plain `Good geo`: definitions and theorems speak of the plain geometry.
#![tactic(auto)]

ghost use Rattle.std.specs.Prelude.{◌≡◌, ◌&&◌, [], ◌∷◌, ◌+◌, ◌*◌, ◌<◌, leb, eqb, length};
ghost use Rattle.model.specs.Lists.{every, blank};
ghost use Rattle.model.specs.Numbers.{Good, chosen, refusal, negated, number};
ghost use Rattle.model.specs.Tables.{tab_words, pages};
ghost use Rattle.model.specs.Entry.{recorder, lent, no_flash, tables_fit, clean, seen_scratch};
ghost use Rattle.guard.specs.Countable.{Known, Countable};

use model::{Answer, Cause, Geometry, Numbers};

// The tables' sizes.
pub fn tables_fit(geo: Geometry, tab: &[u32], used: &[u8]) -> bool
    requires { Good geo }
    ensures { result ≡ (eqb (length tab.now) (tab_words geo) && eqb (length used.now) (pages geo)) }
{
    tab.len() == geo.words() && used.len() == geo.pages()
}

pub fn bytes_fit(geo: Geometry, bytes: &[u8]) -> bool
    requires { Good geo }
    ensures { result ≡ eqb (length bytes.now) (pages geo * geo.s) }
{
    bytes.len() == geo.pages() * geo.s
}

// The flash's sizes.
pub fn flash_fits(geo: Geometry, bytes: &[u8], marks: &[u8], counts: &[u32]) -> bool
    requires { Good geo }
    ensures { result ≡ (eqb (length bytes.now) (pages geo * geo.s) && (eqb (length marks.now) (pages geo) && eqb (length counts.now) geo.n)) }
{
    bytes_fit(geo, bytes) && marks.len() == geo.pages() && counts.len() == geo.n
}

// Scratch of k bytes, and of k words: the right size, and all zero. One function for both would ask a trait of bytes and words for a line each.
pub fn clean(s: &[u8], k: usize) -> bool
    ensures { result ≡ (eqb (length s.now) k && blank s.now) }
{
    s.len() == k && sound::blank(s)
}

pub fn clean_words(s: &[u32], k: usize) -> bool
    ensures { result ≡ (eqb (length s.now) k && blank s.now) }
{
    s.len() == k && sound::blank_words(s)
}

// What write and the collections test first beside the geometry: tables, flash, bad list, and scratch for a page and for the soundness test.
pub fn all_fit(
    geo: Geometry,
    bad: &[u8],
    tab: &[u32],
    used: &[u8],
    bytes: &[u8],
    marks: &[u8],
    counts: &[u32],
    page: &[u8],
    seen: &[u8],
) -> bool
    requires { Good geo }
    ensures { result ≡ ((eqb (length tab.now) (tab_words geo) && eqb (length used.now) (pages geo))
        && ((eqb (length bytes.now) (pages geo * geo.s) && (eqb (length marks.now) (pages geo) && eqb (length counts.now) geo.n))
        && (eqb (length bad.now) geo.n
        && ((eqb (length page.now) geo.s && blank page.now)
        && (eqb (length seen.now) (geo.n + geo.p) && blank seen.now))))) }
{
    tables_fit(geo, tab, used)
        && flash_fits(geo, bytes, marks, counts)
        && bad.len() == geo.n
        && clean(page, geo.s)
        && clean(seen, geo.n + geo.p)
}

// What reading tests beside the geometry: the tables, the flash's bytes, the buffer, and scratch for the soundness test.
#[tactic(auto, using(std::proofs::lemmas::Bool::Decides::nat_tests), unfolding(model::specs::Lists::every, model::specs::Entry::clean))]
pub fn read_fits(
    geo: Geometry,
    len: usize,
    tab: &[u32],
    used: &[u8],
    bytes: &[u8],
    out: &[u8],
    seen: &[u8],
) -> bool
    requires { Good geo }
    ensures { result ≡ every
        (tables_fit geo (lent (recorder tab.now used.now no_flash) [] [])
        ∷ eqb (length bytes.now) (pages geo * geo.s)
        ∷ leb len (length out.now)
        ∷ clean (seen_scratch geo ∷ []) (seen.now ∷ [])
        ∷ []) }
{
    tables_fit(geo, tab, used)
        && bytes_fit(geo, bytes)
        && len <= out.len()
        && clean(seen, geo.n + geo.p)
}

// What restoring tests beside the geometry: the tables, and scratch for the marks of the pages taken.
#[tactic(auto, using(std::proofs::lemmas::Bool::Decides::nat_tests), unfolding(model::specs::Lists::every, model::specs::Entry::clean))]
pub fn restore_fits(geo: Geometry, tab: &[u32], used: &[u8], taken: &[u8]) -> bool
    requires { Good geo }
    ensures { result ≡ every
        (tables_fit geo (lent (recorder tab.now used.now no_flash) [] [])
        ∷ clean (pages geo ∷ []) (taken.now ∷ [])
        ∷ []) }
{
    tables_fit(geo, tab, used) && clean(taken, geo.pages())
}

// The number by the choice: document 01's, or that of 02, M-101.
fn chosen(numbers: Numbers, old: usize, new: usize) -> usize
    ensures { result ≡ chosen numbers old new }
{
    match numbers {
        Numbers::Old => old,
        Numbers::New => new,
    }
}

// "a refusal number": document 01's table, and 02's numbers.
fn refusal(numbers: Numbers, c: Cause) -> usize
    requires { Known c }
    ensures { (result ≡ refusal numbers c) × (result < 4096) }
{
    match c {
        Cause::Wrong => 22,
        Cause::Unsound => 117,
        Cause::Unmapped => 61,
        Cause::NoRoom => chosen(numbers, 14, 28),
        Cause::Device => 5,
        Cause::CopyNoRoom => chosen(numbers, 14, 28),
        Cause::CopyDevice => chosen(numbers, 14, 121),
        Cause::Erase => 5,
        Cause::Reason(r) => r,
    }
}

// By a definition's name: a number below 4,096 is no loss.
fn negated(r: usize) -> i64
    requires { r < 4096 }
    ensures { result ≡ negated r }
{
    -(r as i64)
}

// "Each call answers one signed number: bytes moved, or a refusal number negated."
pub fn number(numbers: Numbers, a: Answer) -> i64
    requires { Countable a }
    ensures { result ≡ number numbers a }
{
    match a {
        Ok(m) => m as i64,
        Err(c) => negated(refusal(numbers, c)),
    }
}
