// The part of a store that the calls are given.
ghost use Rattle.std.specs.Prelude.{◌≡◌};
ghost use Rattle.console.specs.Views.{Composed};

// A window on a store, `length` numbers from `base` on.
#[derive(Clone, Copy)]
pub struct View {
    pub base: usize,
    pub length: usize,
}

impl View {
    // All of a store.
    pub fn whole() -> View
        ensures { (result.base ≡ 0) × (result.length ≡ 18446744073709551615) }
    {
        View {
            base: 0,
            length: usize::MAX,
        }
    }

    // The window that shows what that window over this one would show.
    pub fn narrowed(self, upper: View) -> View
        ensures { Composed self.base self.length upper.base upper.length result.base result.length }
    {
        View {
            base: self.base.saturating_add(upper.base),
            length: upper.length.min(self.length.saturating_sub(upper.base)),
        }
    }
}
