mod calls;
mod running;
mod stepping;

use crate::tallies::Tallies;
use reader::types::Refusal;
use translator::draft::SealedCode;

// A show: a run of sealed code, which belongs to it until it is put away. Its registers are in a store that each
// call is given, and not kept, since others use the store between two calls. `next` is the index of the next instruction,
// its label less 1. That a call leaves code and top as they are is a clause of its own, since no type says what is left
// behind a `&mut`.
#[derive(Drop)]
pub struct Show<'c> {
    sealed: SealedCode<'c>,
    next: usize,
    tallies: Tallies,
}

// A refused start, with the code handed back.
#[derive(Drop)]
pub struct RefusedStart<'c> {
    pub refusal: Refusal,
    pub sealed: SealedCode<'c>,
}
