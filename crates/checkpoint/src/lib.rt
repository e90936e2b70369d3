// Step 6 of document 01 and its "Checkpoint" on the lent tables: opening, the file's bytes, its nine tests, restoring.
#![tactic(auto)]

ghost use Rattle.std.specs.Prelude.{◌≡◌, List, ◌++◌, ℕ, Ok, Err, MatchResult, true, false, ◌+◌, ◌*◌, ◌≤◌, ◌<◌, length, take, drop};
ghost use Rattle.crc32.specs.Crc32.{crc32};
ghost use Rattle.model.specs.Lists.{splice, zeros, up_to};
ghost use Rattle.model.specs.Numbers.{Good};
ghost use Rattle.model.specs.declared.Cause.TheVariants.{Reason};
ghost use Rattle.model.specs.Tables.{at, set_map, set_used, view, tab_words, pages};
ghost use Rattle.model.specs.Checkpoint.{used_by, word, long, words, word_at, long_at, words_at, bare, opened, head, sealed, file_size, alloc_of, map_of, free_of, reason_of, restored_from};
ghost use Rattle.tables.specs.Parts.{tables_of, Same};
ghost use Rattle.checkpoint.specs.Checked.{checked};
ghost use Rattle.checkpoint.specs.Turns.{unlisted, takes, listed, ending, Turn};

use model::{Cause, Geometry, LogicalPage, PhysicalAddress};
use tables::TablesMut;

const MAGIC: u32 = 0x5046_5443;

const VERSION: u32 = 1;

// Where the CRC stands, and how many bytes stand before the map's words.
const CRC_OFFSET: usize = 40;

const HEADER_BYTES: usize = 44;

// The bytes of x, the lowest first, from `at` on: a word's, and a long one's. The definitions name both, `word` and `long`, and speak of places: one
// function over the width would be no plainer.
pub fn put_word(d: &mut [u8], at: usize, x: u32)
    requires { at + 4 ≤ length d.old }
    ensures { d.new ≡ splice at (word x) d.old }
{
    d[at..at + 4].copy_from_slice(&x.to_le_bytes());
}

pub fn put_long(d: &mut [u8], at: usize, x: u64)
    requires { at + 8 ≤ length d.old }
    ensures { d.new ≡ splice at (long x) d.old }
{
    d[at..at + 8].copy_from_slice(&x.to_le_bytes());
}

// The bytes of every word, from `at` on.
pub fn put_words(d: &mut [u8], at: usize, ws: &[u32])
    requires { at + 4 * length ws.now ≤ length d.old }
    ensures { d.new ≡ splice at (words ws.now) d.old }
{
    for (i, x) in ws.iter().enumerate() {
        put_word(d, at + 4 * i, *x);
    }
}

// The word, and the long one, from `at` on.
pub fn get_word(s: &[u8], at: usize) -> u32
    requires { at + 4 ≤ length s.now }
    ensures { result ≡ word_at s.now at }
{
    let mut bytes = [0; 4];
    bytes.copy_from_slice(&s[at..at + 4]);
    u32::from_le_bytes(bytes)
}

pub fn get_long(s: &[u8], at: usize) -> u64
    requires { at + 8 ≤ length s.now }
    ensures { result ≡ long_at s.now at }
{
    let mut bytes = [0; 8];
    bytes.copy_from_slice(&s[at..at + 8]);
    u64::from_le_bytes(bytes)
}

// The k words from byte `at` on, to the front of d.
pub fn get_words(d: &mut [u32], k: usize, s: &[u8], at: usize)
    requires { (k ≤ length d.old) × (at + 4 * k ≤ length s.now) }
    ensures { d.new ≡ splice 0 (words_at k s.now at) d.old }
{
    for (i, x) in d[..k].iter_mut().enumerate() {
        *x = get_word(s, at + 4 * i);
    }
}

// "Length 44 + 4e + 4n"
pub fn file_size(geo: Geometry) -> usize
    requires { Good geo }
    ensures { result ≡ file_size geo }
{
    HEADER_BYTES + 4 * geo.e + 4 * geo.n
}

// Bytes 0 to 39.
fn put_head(geo: Geometry, alloc: u32, d: &mut [u8])
    requires { 40 ≤ length d.old }
    ensures { d.new ≡ splice 0 (head geo alloc) d.old }
{
    put_word(d, 0, MAGIC);
    put_word(d, 4, VERSION);
    put_long(d, 8, alloc as u64);
    put_long(d, 16, geo.n as u64);
    put_long(d, 24, geo.p as u64);
    put_long(d, 32, geo.e as u64);
}

// "The CRC covers bytes 0 to 39 joined with all from 44."
fn file_crc(file: &[u8]) -> u32
    requires { 44 ≤ length file.now }
    ensures { result ≡ crc32 (take 40 file.now ++ drop 44 file.now) }
{
    crc32::joined(&file[..CRC_OFFSET], &file[HEADER_BYTES..])
}

// The checkpoint of the tables, in front of the buffer; the bytes beyond it stay.
pub fn encode(geo: Geometry, tab: &[u32], buffer: &mut [u8])
    requires good { Good geo }
    requires tab_len { (length tab.now ≡ tab_words geo) × (file_size geo ≤ length buffer.old) }
    ensures { (u : List ℕ) → buffer.new ≡ splice 0 (sealed geo (view geo tab.now u)) buffer.old }
{
    // `TablesRef` would be no plainer: it asks for use marks too, which a file does not hold, and would lay the map and the free counts in by two calls.
    let body = geo.e + geo.n;
    let alloc = tab[geo.e + geo.n * 5];
    let size = file_size(geo);
    put_words(buffer, HEADER_BYTES, &tab[..body]);
    put_head(geo, alloc, buffer);
    let crc = file_crc(&buffer[..size]);
    put_word(buffer, CRC_OFFSET, crc);
}

// Whether each of the k words from byte `at` on is at most p.
fn up_to(p: usize, s: &[u8], at: usize, k: usize) -> bool
    requires { at + 4 * k ≤ length s.now }
    ensures { result ≡ up_to p (words_at k s.now at) }
{
    (0..k).all(|i| get_word(s, at + 4 * i) as usize <= p)
}

// A test of a file that fails is the reason to refuse it.
fn test(passes: bool, reason: usize) -> Result<(), Cause>
    ensures { MatchResult result (λ _. passes ≡ true) (λ c. (passes ≡ false) × (c ≡ Reason reason)) }
{
    if passes {
        Ok(())
    } else {
        Err(Cause::Reason(reason))
    }
}

// 01's nine tests of a file: refused by the first that fails.
#[tactic(auto, unfolding(model::specs::Checkpoint::reason_of))]
pub fn check(geo: Geometry, file: &[u8]) -> Result<(), Cause>
    requires { Good geo }
    ensures { result ≡ checked (reason_of geo file.now) }
{
    test(file.len() >= HEADER_BYTES, 1)?;
    test(get_word(file, 0) == MAGIC, 2)?;
    test(get_word(file, 4) == VERSION, 3)?;
    test(get_long(file, 16) == geo.n as u64, 4)?;
    test(get_long(file, 24) == geo.p as u64, 4)?;
    test(get_long(file, 32) == geo.e as u64, 5)?;
    test(file.len() == file_size(geo), 6)?;
    test(get_word(file, CRC_OFFSET) == file_crc(file), 7)?;
    test(get_long(file, 8) < geo.n as u64, 8)?;
    test(up_to(geo.p, file, HEADER_BYTES + 4 * geo.e, geo.n), 9)
}

// Nothing is valid, listed, queued or flagged.
fn unlist(t: &mut TablesMut<'_>)
    ensures same { Same t.old t.new }
    ensures unlisted { tables_of t.new ≡ unlisted t.old.geo t.old.alloc.now (tables_of t.old) }
{
    t.valid.fill(0);
    t.lens.fill(0);
    t.queue.fill(0);
    t.flags.fill(0);
    t.lists.fill(0);
    *t.queued = 0;
}

// Opening: nothing mapped, every page free. "an allocation segment >= n becomes 0"
#[tactic(auto, using(crate::proofs::Marking::used_none))]
pub fn open(t: &mut TablesMut<'_>)
    requires marks { length t.old.used.now ≡ pages t.old.geo }
    ensures same { Same t.old t.new }
    ensures opened { tables_of t.new ≡ opened t.old.geo t.old.alloc.now }
    ensures marks { length t.new.used.now ≡ pages t.new.geo }
{
    t.map.fill(PhysicalAddress::EMPTY.0);
    t.free.fill(t.geo.p as u32);
    t.used.fill(0);
    unlist(t);
    if *t.alloc as usize >= t.geo.n {
        *t.alloc = 0;
    }
}

// Whether a word names a used page of a segment that no word before it named.
#[tactic(auto, unfolding(crate::specs::Turns::takes))]
fn takes(t: &TablesMut<'_>, a: PhysicalAddress, taken: &[u8]) -> bool
    requires { length taken.now ≡ pages t.now.geo }
    ensures { result ≡ takes t.now.geo a.0 (tables_of t.now) taken.now }
{
    let at = t.geo.spot_of(a);
    at.segment < t.geo.n
        && at.page + (t.free[at.segment] as usize) < t.geo.p
        && taken[t.geo.number_of(at)] == 0
}

// Logical page l to the end of the list of segment g.
fn list_page(t: &mut TablesMut<'_>, l: LogicalPage, g: usize)
    requires in_bounds { (l.0 < t.old.geo.e) × (g < t.old.geo.n) }
    requires room { (at t.old.valid.now g < t.old.geo.p) × (at t.old.lens.now g < t.old.geo.p) }
    ensures same { Same t.old t.new }
    ensures listed { tables_of t.new ≡ listed t.old.geo l.0 g (tables_of t.old) }
{
    let end = g * t.geo.p + t.lens[g] as usize;
    t.lists[end] = l.0 as u32;
    t.lens[g] += 1;
    t.valid[g] += 1;
}

// The turn of logical page l: its page is taken and it is listed, or its word becomes empty.
fn settle(t: &mut TablesMut<'_>, l: LogicalPage, taken: &mut [u8])
    requires { (l.0 < t.old.geo.e) × Turn t.old.geo l.0 (tables_of t.old) taken.old }
    ensures same { Same t.old t.new }
    ensures turn { Turn t.old.geo (l.0 + 1) (tables_of t.new) taken.new }
    ensures ending { ending t.old.geo (l.0 + 1) (tables_of t.new) ≡ ending t.old.geo l.0 (tables_of t.old) }
{
    let a = PhysicalAddress(t.map[l.0]);
    if !takes(t, a, taken) {
        t.map[l.0] = PhysicalAddress::EMPTY.0;
        return;
    }
    let at = t.geo.spot_of(a);
    taken[t.geo.number_of(at)] = 1;
    list_page(t, l, at.segment);
}

// "from logical page 0 upward"
fn settle_all(t: &mut TablesMut<'_>, taken: &mut [u8])
    requires { Turn t.old.geo 0 (tables_of t.old) taken.old }
    ensures same { Same t.old t.new }
    ensures ending { tables_of t.new ≡ ending t.old.geo 0 (tables_of t.old) }
{
    for l in 0..t.geo.e {
        settle(t, LogicalPage(l), taken);
    }
}

// Use marks by the free counts: the first pages of each segment are used.
fn mark_used(p: usize, free: &[u32], used: &mut [u8])
    requires { (length used.old ≡ length free.now * p) × ((g : ℕ) → at free.now g ≤ p) }
    ensures { used.new ≡ used_by p free.now }
{
    for (g, clear) in free.iter().enumerate() {
        let end = g * p + p;
        let middle = end - *clear as usize;
        used[g * p..middle].fill(1);
        used[middle..end].fill(0);
    }
}

// The words of a file that passes, nothing settled yet.
fn read_in(t: &mut TablesMut<'_>, file: &[u8])
    requires { reason_of t.old.geo file.now ≡ 0 }
    ensures same { Same t.old t.new }
    ensures read { tables_of t.new
        ≡ set_map (map_of t.old.geo file.now) (set_used t.old.used.now (bare t.old.geo (free_of t.old.geo file.now) (alloc_of t.old.geo file.now))) }
{
    get_words(t.map, t.geo.e, file, HEADER_BYTES);
    get_words(t.free, t.geo.n, file, HEADER_BYTES + 4 * t.geo.e);
    *t.alloc = get_long(file, 8) as u32;
    unlist(t);
}

// Restoring from a file that passes. The taken marks come back clear.
pub fn restore(t: &mut TablesMut<'_>, file: &[u8], taken: &mut [u8])
    requires marks { length t.old.used.now ≡ pages t.old.geo }
    requires taken_value { taken.old ≡ zeros (pages t.old.geo) }
    requires passes { reason_of t.old.geo file.now ≡ 0 }
    ensures same { Same t.old t.new }
    ensures restored { tables_of t.new ≡ restored_from t.old.geo file.now }
    ensures marks { length t.new.used.now ≡ pages t.new.geo }
    ensures clean { taken.new ≡ zeros (pages t.old.geo) }
{
    read_in(t, file);
    // Lent by itself: of a field lent within a call the proof would forget the words.
    let free = &mut *t.free;
    mark_used(t.geo.p, free, t.used);
    settle_all(t, taken);
    taken.fill(0);
}
