// The flash: pages are programmed and read, segments erased and formatted. The fuse says how many operations are still done.
#![tactic(auto)]

ghost use Rattle.std.specs.Prelude.{◌≡◌, ◌<◌, ◌*◌, length};
ghost use Rattle.model.specs.Numbers.{Good};
ghost use Rattle.model.specs.Tables.{pages};
ghost use Rattle.model.specs.Device.{burn};

use model::{Cause, Geometry, Spot};

// "The lent device carries a fuse": the operations that it still does, 2^64-1 meaning without end.
const ENDLESS: u64 = u64::MAX;

// The flash that a caller lends, of a good geometry. Its erase counts are lent apart: a write may only look at them.
#[derive(Drop)]
pub struct FlashMut<'a> {
    pub geo: Geometry,
    pub bytes: &'a mut [u8],
    pub marks: &'a mut [u8],
    pub fuse: &'a mut u64,
    pub ghost good: { Good geo },
    pub ghost bytes_len: { length bytes.now ≡ pages geo * geo.s },
    pub ghost marks_len: { length marks.now ≡ pages geo },
}

// One operation less, unless without end.
fn burn(fuse: &mut u64)
    requires { 0 < fuse.old }
    ensures { fuse.new ≡ burn fuse.old }
{
    if *fuse != ENDLESS {
        *fuse -= 1;
    }
}

impl FlashMut<'_> {
    ghost use Rattle.std.specs.Prelude.{List, ℕ, ◌+◌, set};
    ghost use Rattle.model.specs.Lists.{slot};
    ghost use Rattle.model.specs.Tables.{Tables};
    ghost use Rattle.model.specs.Device.{flash, may_program, programmed, may_erase, erased, blanked, clear_up, state, format_from};
    ghost use Rattle.model.specs.declared.Cause.TheVariants.{Device, Erase};
    ghost use Rattle.device.specs.Lent.{flash_of, Same};
    ghost use Rattle.device.specs.Tried.{Tried};

    // The bytes of a page. Reading is never refused.
    pub fn read_page(&self, at: Spot, page: &mut [u8])
        requires in_bounds { (at.segment < self.now.geo.n) × (at.page < self.now.geo.p) }
        requires page_len { length page.old ≡ self.now.geo.s }
        ensures { page.new ≡ slot self.now.geo.s (at.segment * self.now.geo.p + at.page) self.now.bytes.now }
    {
        let start = (at.segment * self.geo.p + at.page) * self.geo.s;
        page.copy_from_slice(&self.bytes[start..start + self.geo.s]);
    }

    // Whether the page and every higher page of its segment are unmarked.
    fn clear_up(&self, at: Spot) -> bool
        requires in_bounds { (at.segment < self.now.geo.n) × (at.page < self.now.geo.p) }
        ensures { (c : List ℕ) → result ≡ clear_up self.now.geo at.segment at.page (flash_of self.now c) }
    {
        let row = at.segment * self.geo.p;
        sound::blank(&self.marks[row + at.page..row + self.geo.p])
    }

    // The page takes these bytes, unless its mark or that of a higher page of its segment is set, or the fuse is out.
    pub fn program(&mut self, at: Spot, page: &[u8]) -> Result<(), Cause>
        requires in_bounds { (at.segment < self.old.geo.n) × (at.page < self.old.geo.p) }
        requires page_len { length page.now ≡ self.old.geo.s }
        ensures same { Same self.old self.new }
        ensures tried { (c : List ℕ) → Tried
            (may_program self.old.geo at.segment at.page (flash_of self.old c)) Device
            (programmed self.old.geo at.segment at.page page.now (flash_of self.old c))
            (flash_of self.old c)
            result (flash_of self.new c) }
    {
        if !self.clear_up(at) || *self.fuse == 0 {
            return Err(Cause::Device);
        }
        let number = at.segment * self.geo.p + at.page;
        let start = number * self.geo.s;
        self.bytes[start..start + self.geo.s].copy_from_slice(page);
        self.marks[number] = 1;
        burn(self.fuse);
        Ok(())
    }

    // Every byte of segment g is 255 and every mark clear, and the fuse is one lower; the erase count is the caller's.
    fn blank_segment(&mut self, g: usize)
        requires { (g < self.old.geo.n) × (0 < self.old.fuse.now) }
        ensures same { Same self.old self.new }
        ensures blank { (c : List ℕ) (x : ℕ) → flash_of self.new (set c g x) ≡ blanked self.old.geo g x (flash_of self.old c) }
    {
        let first = g * self.geo.p;
        let end = first + self.geo.p;
        self.marks[first..end].fill(0);
        self.bytes[first * self.geo.s..end * self.geo.s].fill(255);
        burn(self.fuse);
    }

    // Segment g erased and its count raised, unless it has reached the limit or the fuse is out.
    pub fn erase(&mut self, g: usize, counts: &mut [u32]) -> Result<(), Cause>
        requires in_bounds { (g < self.old.geo.n) × (length counts.old ≡ self.old.geo.n) }
        ensures same { Same self.old self.new }
        ensures tried { Tried
            (may_erase self.old.geo g (flash_of self.old counts.old)) Erase
            (erased self.old.geo g (flash_of self.old counts.old))
            (flash_of self.old counts.old)
            result (flash_of self.new counts.new) }
    {
        if counts[g] as usize >= self.geo.limit || *self.fuse == 0 {
            return Err(Cause::Erase);
        }
        self.blank_segment(g);
        counts[g] += 1;
        Ok(())
    }

    // Every segment formatted from 0 up, whatever its count, until the fuse is out: what is left is skipped.
    pub fn format(&mut self, counts: &mut [u32])
        requires counts_len { length counts.old ≡ self.old.geo.n }
        ensures same { Same self.old self.new }
        ensures formatted { (t : Tables) → flash_of self.new counts.new
            ≡ (format_from self.old.geo self.old.geo.n 0 (state t (flash_of self.old counts.old))).st.flash }
    {
        for g in 0..self.geo.n {
            if *self.fuse == 0 {
                return;
            }
            self.blank_segment(g);
            counts[g] = 0;
        }
    }
}
