ghost use Rattle.std.specs.Prelude.{◌≡◌, ◌*◌, length};
ghost use Rattle.model.specs.Numbers.{Good};
ghost use Rattle.model.specs.Tables.{Tables, tables, tab_words, pages, view};
ghost use Rattle.model.specs.declared.Geometry.{Geometry};
ghost use Rattle.model.specs.Numbers.{Answer};
ghost use Rattle.tables.specs.Parts.{tables_of, Same};

use crate::TablesMut;
use model::{Answer, Geometry};

// A call on the tables, with what else it is lent.
pub trait Deed {
    // What it asks of the tables and of what it is lent.
    ghost may: { Geometry → Tables → Self → Type 0 };

    // What it answers, and what it leaves of both.
    ghost does: { Geometry → Tables → Self → Answer → Tables → Self → Type 0 };

    fn run(&mut self, t: &mut TablesMut<'_>) -> Answer
        requires marks { length t.old.used.now ≡ pages t.old.geo }
        requires may { may t.old.geo (tables_of t.old) self.old }
        ensures same { Same t.old t.new }
        ensures does { does t.old.geo (tables_of t.old) self.old result (tables_of t.new) self.new };
}

// The deed on the tables whose parts are these. They are lent one by one, and put together here: of parts that are cut off and put together in one
// function the proof forgets what they end as.
fn on_parts<D: Deed>(
    geo: Geometry,
    map: &mut [u32],
    free: &mut [u32],
    valid: &mut [u32],
    lens: &mut [u32],
    queue: &mut [u32],
    flags: &mut [u32],
    alloc: &mut u32,
    queued: &mut u32,
    lists: &mut [u32],
    used: &mut [u8],
    deed: &mut D,
) -> Answer
    requires good { Good geo }
    requires sized { (length map.old ≡ geo.e) × (length free.old ≡ geo.n) × (length valid.old ≡ geo.n) × (length lens.old ≡ geo.n) × (length queue.old ≡ geo.n) × (length flags.old ≡ geo.n) × (length lists.old ≡ geo.n * geo.p) × (length used.old ≡ geo.n * geo.p) }
    requires may { D.may geo (tables map.old free.old valid.old used.old lists.old lens.old queue.old flags.old alloc.old queued.old) deed.old }
    ensures { D.does geo (tables map.old free.old valid.old used.old lists.old lens.old queue.old flags.old alloc.old queued.old) deed.old
        result (tables map.new free.new valid.new used.new lists.new lens.new queue.new flags.new alloc.new queued.new) deed.new }
{
    let mut t = TablesMut {
        geo,
        map,
        free,
        valid,
        lens,
        queue,
        flags,
        alloc,
        queued,
        lists,
        used,
    };
    deed.run(&mut t)
}

// The deed on the tables that lie in the words and the use marks: what it leaves of them lies there again.
pub fn on_packed<D: Deed>(geo: Geometry, tab: &mut [u32], used: &mut [u8], deed: &mut D) -> Answer
    requires good { Good geo }
    requires tab_len { (length tab.old ≡ tab_words geo) × (length used.old ≡ pages geo) }
    requires may { D.may geo (view geo tab.old used.old) deed.old }
    ensures { D.does geo (view geo tab.old used.old) deed.old result (view geo tab.new used.new) deed.new }
{
    let (map, rest) = tab.split_at_mut(geo.e);
    let (free, rest) = rest.split_at_mut(geo.n);
    let (valid, rest) = rest.split_at_mut(geo.n);
    let (lens, rest) = rest.split_at_mut(geo.n);
    let (queue, rest) = rest.split_at_mut(geo.n);
    let (flags, rest) = rest.split_at_mut(geo.n);
    let (alloc, rest) = rest.split_at_mut(1);
    let (queued, lists) = rest.split_at_mut(1);
    on_parts(
        geo,
        map,
        free,
        valid,
        lens,
        queue,
        flags,
        &mut alloc[0],
        &mut queued[0],
        lists,
        used,
        deed,
    )
}
