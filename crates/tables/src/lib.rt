// The tables that a caller lends, part by part; and the words that they lie in, lent to look at, or cut into these parts for a call.
#![tactic(auto)]

ghost use Rattle.std.specs.Prelude.{◌≡◌, ◌+◌, ◌*◌, ◌<◌, length};
ghost use Rattle.model.specs.Numbers.{Good};
ghost use Rattle.model.specs.Tables.{tab_words, pages, region};

use model::Geometry;

pub mod packed;

// "map: a word for each logical page. Of each segment: free and valid count, list length, flag, list (p slots each). used: a mark for each page."
// The queue has n slots, `queued` in use; alloc is the allocation segment. Use marks are asked for by the functions that need them: a step that touches
// words alone takes any, also none.
#[derive(Drop)]
pub struct TablesMut<'a> {
    pub geo: Geometry,
    pub map: &'a mut [u32],
    pub free: &'a mut [u32],
    pub valid: &'a mut [u32],
    pub lens: &'a mut [u32],
    pub queue: &'a mut [u32],
    pub flags: &'a mut [u32],
    pub alloc: &'a mut u32,
    pub queued: &'a mut u32,
    pub lists: &'a mut [u32],
    pub used: &'a mut [u8],
    pub ghost good: { Good geo },
    pub ghost map_len: { length map.now ≡ geo.e },
    pub ghost free_len: { length free.now ≡ geo.n },
    pub ghost valid_len: { length valid.now ≡ geo.n },
    pub ghost lens_len: { length lens.now ≡ geo.n },
    pub ghost queue_len: { length queue.now ≡ geo.n },
    pub ghost flags_len: { length flags.now ≡ geo.n },
    pub ghost lists_len: { length lists.now ≡ geo.n * geo.p },
}

// Tables that lie in words, and their use marks, lent to look at. Where each part lies stands here, and in `on_packed`, which cuts what is lent to change.
#[derive(Clone, Copy)]
pub struct TablesRef<'a> {
    pub geo: Geometry,
    pub tab: &'a [u32],
    pub used: &'a [u8],
    pub ghost good: { Good geo },
    pub ghost tab_len: { length tab.now ≡ tab_words geo },
    pub ghost used_len: { length used.now ≡ pages geo },
}

#[tactic(auto, unfolding(model::specs::Tables::view))]
impl<'a> TablesRef<'a> {
    ghost use Rattle.tables.specs.Parts.{tables_in};

    pub fn map(&self) -> &'a [u32]
        ensures part { result.now ≡ (tables_in self.now).map }
        ensures len { length result.now ≡ self.now.geo.e }
    {
        &self.tab[..self.geo.e]
    }

    // The five tables of a word for each segment lie behind the map: free counts, valid counts, lengths, queue, flags.
    fn column(&self, i: usize) -> &'a [u32]
        requires { i < 5 }
        ensures part { result.now ≡ region (self.now.geo.e + self.now.geo.n * i) self.now.geo.n self.now.tab.now }
        ensures len { length result.now ≡ self.now.geo.n }
    {
        let start = self.geo.e + self.geo.n * i;
        &self.tab[start..start + self.geo.n]
    }

    pub fn free(&self) -> &'a [u32]
        ensures part { result.now ≡ (tables_in self.now).free }
        ensures len { length result.now ≡ self.now.geo.n }
    {
        self.column(0)
    }

    pub fn valid(&self) -> &'a [u32]
        ensures part { result.now ≡ (tables_in self.now).valid }
        ensures len { length result.now ≡ self.now.geo.n }
    {
        self.column(1)
    }

    pub fn lens(&self) -> &'a [u32]
        ensures part { result.now ≡ (tables_in self.now).lens }
        ensures len { length result.now ≡ self.now.geo.n }
    {
        self.column(2)
    }

    pub fn queue(&self) -> &'a [u32]
        ensures part { result.now ≡ (tables_in self.now).queue }
        ensures len { length result.now ≡ self.now.geo.n }
    {
        self.column(3)
    }

    pub fn flags(&self) -> &'a [u32]
        ensures part { result.now ≡ (tables_in self.now).flags }
        ensures len { length result.now ≡ self.now.geo.n }
    {
        self.column(4)
    }

    // Behind those the allocation segment and the queue's length, and then the lists.
    pub fn alloc(&self) -> usize
        ensures { result ≡ (tables_in self.now).alloc }
    {
        self.tab[self.geo.e + self.geo.n * 5] as usize
    }

    pub fn queued(&self) -> usize
        ensures { result ≡ (tables_in self.now).queued }
    {
        self.tab[self.geo.e + self.geo.n * 5 + 1] as usize
    }

    pub fn lists(&self) -> &'a [u32]
        ensures part { result.now ≡ (tables_in self.now).lists }
        ensures len { length result.now ≡ self.now.geo.n * self.now.geo.p }
    {
        &self.tab[self.geo.e + self.geo.n * 5 + 2..]
    }
}
