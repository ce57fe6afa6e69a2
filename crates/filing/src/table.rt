// A filing table over lent memory, filled from the front.
ghost use Rattle.std.specs.Prelude.{◌≤◌, length};

// The first `filed` cells hold the elements that are filed: memory of the caller's, which no Vec can be. That a call leaves
// it the same memory is a clause of its own each time, since no type says what is left behind a `&mut`.
#[derive(Drop)]
pub struct Table<'a, T> {
    cells: &'a mut [T],
    filed: usize,
    ghost within: { filed ≤ length cells.now },
}

impl<'a, T> Table<'a, T> {
    ghost use Rattle.std.specs.Prelude.{◌≡◌, length, take};
    ghost use Rattle.filing.specs.Tables.{memory, count};

    // How many elements are filed.
    pub fn len(&self) -> usize
        ensures { result ≡ count self.now }
    {
        self.as_slice().len()
    }

    // The elements that are filed.
    pub fn as_slice(&self) -> &[T]
        ensures { result.now ≡ take (count self.now) (memory self.now) }
    {
        &self.cells[..self.filed]
    }

    // How many elements there is memory for.
    pub fn room(&self) -> usize
        ensures { result ≡ length (memory self.now) }
    {
        self.cells.len()
    }
}

impl<'a, T: Copy> Table<'a, T> {
    ghost use Rattle.std.specs.Prelude.{◌≡◌, ℕ, suc, ◌+◌, ◌-◌, ◌^◌, ◌<◌, ◌≤◌, min, IfSome, List, ◌++◌, length, take, replicate};
    ghost use Rattle.filing.specs.Tables.{memory, count, lent, Filed, Found, Amended};

    // An empty table over `cells`, which stay as they are.
    pub fn new(cells: &'a mut [T]) -> Self
        ensures count { count result ≡ 0 }
        ensures memory { memory result ≡ cells.old }
        ensures lent { lent result ≡ cells.entry.ghost_name }
    {
        Table { cells, filed: 0 }
    }

    // A table over `cells` of which the first ones are filed already: `filed` of them, or all where there are fewer.
    pub fn over(cells: &'a mut [T], filed: usize) -> Self
        ensures count { count result ≡ min filed (length cells.old) }
        ensures memory { memory result ≡ cells.old }
        ensures lent { lent result ≡ cells.entry.ghost_name }
    {
        let filed = filed.min(cells.len());
        Table { cells, filed }
    }

    // Files `x` behind the others and answers its index; None where the memory is full.
    pub fn file(&mut self, x: T) -> Option<usize>
        ensures filed { Filed x self.old result self.new }
        ensures within { IfSome result (λ i. suc i < 2 ^ 64) }
        ensures lent { lent self.new ≡ lent self.old }
    {
        let index = self.filed;
        if index < self.cells.len() {
            self.cells[index] = x;
            self.filed = index + 1;
            Some(index)
        } else {
            None
        }
    }

    // The element at `index`, if one is filed there.
    pub fn get(&self, index: usize) -> Option<T>
        ensures { Found self.now index result }
    {
        self.as_slice().get(index).copied()
    }

    // Puts `x` in the place of the element at `index`; false where none is filed there. There is nothing more to tell, so
    // that an Option would say no more.
    pub fn amend(&mut self, index: usize, x: T) -> bool
        ensures amended { Amended x index self.old result self.new }
        ensures lent { lent self.new ≡ lent self.old }
    {
        if index < self.filed {
            self.cells[index] = x;
            true
        } else {
            false
        }
    }

    // Puts `zero` into each cell behind those that are filed.
    pub fn clear_rest(&mut self, zero: T)
        ensures count { count self.new ≡ count self.old }
        ensures memory { memory self.new ≡ take (count self.old) (memory self.old) ++ replicate (length (memory self.old) - count self.old) zero }
        ensures lent { lent self.new ≡ lent self.old }
    {
        for cell in &mut self.cells[self.filed..] {
            *cell = zero;
        }
    }

    // Empties the table and puts `zero` into each cell.
    pub fn clear(&mut self, zero: T)
        ensures count { count self.new ≡ 0 }
        ensures memory { memory self.new ≡ replicate (length (memory self.old)) zero }
        ensures lent { lent self.new ≡ lent self.old }
    {
        self.filed = 0;
        self.clear_rest(zero);
    }

    // Gives the memory back, as it is.
    pub fn give_back(self) -> &'a mut [T]
        ensures memory { result.now ≡ memory self.entry }
        ensures lent { result.ghost_name ≡ lent self.entry }
    {
        let Table { cells, filed: _ } = self;
        cells
    }
}
