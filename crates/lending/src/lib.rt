// The public entries with clean scratch of their own, for a program that keeps none. The scratch is enough for the geometries of a trace.
#![tactic(auto)]

ghost use Rattle.lending.specs.Does.{Small};

use model::{Answer, Geometry, Queueing};

// What a program keeps from call to call: its geometry, the words and use marks of its tables, and its flash.
#[derive(Drop)]
pub struct UnitMut<'a> {
    pub geo: Geometry,
    pub tab: &'a mut [u32],
    pub used: &'a mut [u8],
    pub bytes: &'a mut [u8],
    pub marks: &'a mut [u8],
    pub counts: &'a mut [u32],
    pub fuse: &'a mut u64,
    pub ghost small: { Small geo },
}

impl UnitMut<'_> {
    ghost use Rattle.std.specs.Prelude.{[], ◌∷◌, length};
    ghost use Rattle.guard.specs.Countable.{Countable};
    ghost use Rattle.model.specs.Lists.{zeros};
    ghost use Rattle.model.specs.Tables.{pages};
    ghost use Rattle.model.specs.Entry.{lent, page_scratch, seen_scratch};
    ghost use Rattle.model.specs.Entry.{write, read, collection, list_collection, encoding, restoring};
    ghost use Rattle.lending.specs.Does.{Does};
    ghost use Rattle.lending.specs.Unit.{recorder_of, Same};

    // Bytes written at a sector.
    pub fn write(&mut self, sector: usize, xs: &[u8], bad: &[u8]) -> Answer
        ensures same { Same self.old self.new }
        ensures done { Does
            (write self.old.geo bad.now sector (length xs.now) xs.now
            (lent (recorder_of self.old) [] (zeros (page_scratch self.old.geo) ∷ zeros (seen_scratch self.old.geo) ∷ [])))
            (recorder_of self.new) [] result }
        ensures countable { Countable result }
    {
        let mut page = [0u8; 512];
        let mut seen = [0u8; 2048];
        // a write only looks at the counts; tried: of a field lent to look at, `&*self.counts`, the proof would forget the contents
        let counts = &mut *self.counts;
        ftl::write(
            self.geo,
            sector,
            xs.len(),
            xs,
            bad,
            self.tab,
            self.used,
            self.bytes,
            self.marks,
            counts,
            self.fuse,
            &mut page[..self.geo.s],
            &mut seen[..self.geo.n + self.geo.p],
        )
    }

    // Bytes at a sector, into the front of out.
    pub fn read(&self, sector: usize, len: usize, out: &mut [u8]) -> Answer
        ensures done { Does
            (read self.now.geo sector len (lent (recorder_of self.now) out.old (zeros (seen_scratch self.now.geo) ∷ [])))
            (recorder_of self.now) out.new result }
        ensures countable { Countable result }
    {
        let mut seen = [0u8; 2048];
        ftl::read(
            self.geo,
            sector,
            len,
            self.tab,
            self.used,
            self.bytes,
            out,
            &mut seen[..self.geo.n + self.geo.p],
        )
    }

    // One collection.
    pub fn collect(&mut self, bad: &[u8]) -> Answer
        ensures same { Same self.old self.new }
        ensures done { Does
            (collection self.old.geo bad.now
            (lent (recorder_of self.old) [] (zeros (page_scratch self.old.geo) ∷ zeros (seen_scratch self.old.geo) ∷ zeros self.old.geo.n ∷ [])))
            (recorder_of self.new) [] result }
        ensures countable { Countable result }
    {
        let mut page = [0u8; 512];
        let mut seen = [0u8; 2048];
        let mut order = [0u32; 1024];
        ftl::collect(
            self.geo,
            bad,
            self.tab,
            self.used,
            self.bytes,
            self.marks,
            self.counts,
            self.fuse,
            &mut page[..self.geo.s],
            &mut seen[..self.geo.n + self.geo.p],
            &mut order[..self.geo.n],
        )
    }

    // Collections from the list, at most m of them counted.
    pub fn collect_list(&mut self, m: usize, bad: &[u8]) -> Answer
        ensures same { Same self.old self.new }
        ensures done { Does
            (list_collection self.old.geo bad.now m
            (lent (recorder_of self.old) [] (zeros (page_scratch self.old.geo) ∷ zeros (seen_scratch self.old.geo) ∷ zeros self.old.geo.n ∷ [])))
            (recorder_of self.new) [] result }
        ensures countable { Countable result }
    {
        let mut page = [0u8; 512];
        let mut seen = [0u8; 2048];
        let mut order = [0u32; 1024];
        ftl::collect_list(
            self.geo,
            m,
            bad,
            self.tab,
            self.used,
            self.bytes,
            self.marks,
            self.counts,
            self.fuse,
            &mut page[..self.geo.s],
            &mut seen[..self.geo.n + self.geo.p],
            &mut order[..self.geo.n],
        )
    }

    // The checkpoint, into the front of the buffer.
    pub fn encode(&self, buffer: &mut [u8]) -> Answer
        ensures done { Does
            (encoding self.now.geo (lent (recorder_of self.now) buffer.old (zeros (seen_scratch self.now.geo) ∷ [])))
            (recorder_of self.now) buffer.new result }
        ensures countable { Countable result }
    {
        let mut seen = [0u8; 2048];
        ftl::encode(
            self.geo,
            self.tab,
            self.used,
            buffer,
            &mut seen[..self.geo.n + self.geo.p],
        )
    }

    // The tables of a checkpoint.
    pub fn restore(&mut self, queueing: Queueing, file: &[u8]) -> Answer
        ensures same { Same self.old self.new }
        ensures done { Does
            (restoring self.old.geo queueing file.now (lent (recorder_of self.old) [] (zeros (pages self.old.geo) ∷ [])))
            (recorder_of self.new) [] result }
        ensures countable { Countable result }
    {
        let mut taken = [0u8; 1024];
        // not `geo.pages()`, which asks for a good geometry: the entry itself tests that
        let pages = self.geo.n * self.geo.p;
        ftl::restore(
            self.geo,
            queueing,
            file,
            self.tab,
            self.used,
            &mut taken[..pages],
        )
    }
}
