// How far a text is read.
ghost use Rattle.std.specs.Prelude.{◌≡◌};
ghost use Rattle.text.specs.Scripted.{first_script};

use crate::bytes::Bytes;
use terms::declared::Declared;
use terms::nodes::Table;
use terms::prologue::Named;

// The declared symbols, with the offset of the next command; their bytes in the problem; the table of nodes; and the numbers of the
// asserts' nodes.
#[derive(Clone, Copy)]
pub struct Script<'a> {
    pub declared: Declared<'a>,
    pub symbols: Bytes<32>,
    pub table: Table,
    pub roots: Bytes<256>,
}

impl<'a> Script<'a> {
    // Behind the prologue: nothing is declared, nothing is laid.
    pub fn new(named: Named<'a>) -> Self
        ensures { result ≡ first_script named.entry }
    {
        Script {
            declared: Declared {
                count: 0,
                command: named.at,
                sort: named.name,
                inhabited: false,
            },
            symbols: Bytes::new(),
            table: Table::new(),
            roots: Bytes::new(),
        }
    }
}
