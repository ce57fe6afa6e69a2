ghost use Rattle.std.specs.Prelude.{◌≡◌};
ghost use Rattle.reader.specs.Records.{statement_of};

use crate::types::{Kind, Statement};

impl Statement {
    // The record of a LOOP or WHILE.
    pub fn block(kind: Kind, source: usize, end: usize) -> Statement
        ensures { result ≡ statement_of kind 0 source 0 end }
    {
        Statement {
            kind,
            target: 0,
            source,
            constant: 0,
            end,
        }
    }
}
