// The inner calls, each with what it is lent beside the tables.

ghost use Rattle.ftl.specs.Calls.{Opened, MayRestore, Restored, MayWrite, Written, MayCollect, Collected};

use device::FlashMut;
use model::{Answer, LogicalPage, Queueing};
use page_gc::{collect, collect_list, collect_threshold};
use tables::TablesMut;
use tables::packed::Deed;

#[derive(Drop)]
pub struct Opening;

impl Deed for Opening {
    ghost may = { λ G t d. Unit {0} };

    ghost does = { λ G t d r t' d'. Opened G t r t' };

    fn run(&mut self, t: &mut TablesMut<'_>) -> Answer {
        checkpoint::open(t);
        Ok(0)
    }
}

#[derive(Drop)]
pub struct Restoring<'f, 'a> {
    pub queueing: Queueing,
    pub file: &'f [u8],
    pub taken: &'a mut [u8],
}

impl Deed for Restoring<'_, '_> {
    ghost may = { λ G t d. MayRestore G d };

    ghost does = { λ G t d r t' d'. Restored G d r t' d' };

    fn run(&mut self, t: &mut TablesMut<'_>) -> Answer {
        checkpoint::restore(t, self.file, self.taken);
        requeue::requeue(t, self.queueing);
        Ok(0)
    }
}

// The bytes xs at offset off of logical page l.
#[derive(Drop)]
pub struct Writing<'a> {
    pub bytes: &'a mut [u8],
    pub marks: &'a mut [u8],
    pub fuse: &'a mut u64,
    pub l: LogicalPage,
    pub off: usize,
    pub xs: &'a [u8],
    pub bad: &'a [u8],
    pub page: &'a mut [u8],
}

impl Deed for Writing<'_> {
    ghost may = { λ G t d. MayWrite G t d };

    ghost does = { λ G t d r t' d'. Written G t d r t' d' };

    fn run(&mut self, t: &mut TablesMut<'_>) -> Answer {
        let mut flash = FlashMut {
            geo: t.geo,
            bytes: self.bytes,
            marks: self.marks,
            fuse: self.fuse,
        };
        page_write::write_page(
            t, &mut flash, self.l, self.off, self.xs, self.bad, self.page,
        )
    }
}

// Which passes a collection makes: one; from the list, at most so many counted; these, unless more pages are free than the threshold.
#[derive(Clone, Copy, Debug, PartialEq, Eq)]
pub enum Passes {
    One,
    List(usize),
    Threshold(u64, usize),
}

#[derive(Drop)]
pub struct Collecting<'a> {
    pub passes: Passes,
    pub bytes: &'a mut [u8],
    pub marks: &'a mut [u8],
    pub fuse: &'a mut u64,
    pub counts: &'a mut [u32],
    pub bad: &'a [u8],
    pub page: &'a mut [u8],
    pub order: &'a mut [u32],
}

impl Deed for Collecting<'_> {
    ghost may = { λ G t d. MayCollect G t d };

    ghost does = { λ G t d r t' d'. Collected G t d r t' d' };

    fn run(&mut self, t: &mut TablesMut<'_>) -> Answer {
        let mut flash = FlashMut {
            geo: t.geo,
            bytes: self.bytes,
            marks: self.marks,
            fuse: self.fuse,
        };
        match self.passes {
            Passes::One => collect(t, &mut flash, self.counts, self.bad, self.page, self.order),
            Passes::List(m) => collect_list(
                t,
                &mut flash,
                self.counts,
                m,
                self.bad,
                self.page,
                self.order,
            ),
            Passes::Threshold(threshold, m) => collect_threshold(
                t,
                &mut flash,
                self.counts,
                threshold,
                m,
                self.bad,
                self.page,
                self.order,
            ),
        }
    }
}
