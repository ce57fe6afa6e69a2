// The stores that the calls of a script are given.
use crate::view::View;
use stores::store::Store;
use stores::window::Window;

// Two stores. A show or a rehearsal is given the first, and a rehearsal beside a show the second.
#[derive(Drop)]
pub struct Twins<S, T> {
    pub first: S,
    pub second: T,
}

impl<S: Store, T: Store> Twins<S, T> {
    // That part of both.
    pub fn windows(&mut self, view: View) -> Twins<Window<'_, S>, Window<'_, T>> {
        Twins {
            first: Window::open(&mut self.first, view.base, view.length),
            second: Window::open(&mut self.second, view.base, view.length),
        }
    }
}
