// The table made ready for the walk: every node becomes a branch, a choice between two cells by whether two others are equal.
// Cell 0 is false, 1 true, 2 + v the value of digit v, and 42 + p the node at position p.
ghost use Rattle.std.specs.Prelude.{◌+◌, ◌*◌, ◌≤◌, ◌<◌, ◌≡◌, length, get_or};
ghost use Rattle.definitions.specs.Problem.Node.{node};
ghost use Rattle.ranges.specs.Table.{table_in};
ghost use Rattle.walk.specs.Cells.{one, where_true, scaled, branch_of, cell_at, Decoded};
ghost use Rattle.walk.specs.Reading.{InOrder, positions_in};

use problem::ops::Op;
use ranges::table::FreeTable;

// Where the left and the right cell are equal it is the cell same, else the cell apart. A cell is told by its number, or by where
// its lanes begin.
#[derive(Clone, Copy)]
pub struct Branch {
    pub left: u16,
    pub right: u16,
    pub same: u16,
    pub apart: u16,
}

impl Branch {
    pub const FALSE: Branch = Branch {
        left: 0,
        right: 0,
        same: 0,
        apart: 0,
    };

    // The cell itself.
    fn itself(cell: u16) -> Branch
        ensures { result ≡ one cell }
    {
        Branch {
            left: cell,
            right: cell,
            same: cell,
            apart: cell,
        }
    }

    // One cell where the condition is true, else the other.
    fn where_true(condition: u16, same: u16, apart: u16) -> Branch
        ensures { result ≡ where_true condition same apart }
    {
        Branch {
            left: condition,
            right: 1,
            same,
            apart,
        }
    }

    // From the cells' numbers to where their lanes begin.
    fn laid_out(self, lanes: u16) -> Branch
        requires { (lanes * self.left < 65536) × (lanes * self.right < 65536) × (lanes * self.same < 65536) × (lanes * self.apart < 65536) }
        ensures { result ≡ scaled lanes self }
    {
        Branch {
            left: lanes * self.left,
            right: lanes * self.right,
            same: lanes * self.same,
            apart: lanes * self.apart,
        }
    }
}

// The cell of a node.
fn cell_at(positions: &[u16], k: u16) -> u16
    requires { (k < length positions.now) × (get_or positions.now k 0 < 2632) }
    ensures { result ≡ cell_at (positions_in positions.now) k }
{
    42 + positions[usize::from(k)]
}

// The branch of node k. That the positions are those of the nodes in some order (`InOrder`) is asked in three contracts: it is a fact
// of a lent array, which `arrange` has filled, and a struct round it would be no plainer.
fn branch_at(table: FreeTable<'_>, k: usize, positions: &[u16]) -> Branch
    requires { (k < table.shape.nodes) × InOrder positions.now × (length positions.now ≡ table.shape.nodes) }
    ensures { result ≡ branch_of (cell_at (positions_in positions.now)) table.entry.shape.variables (node (table_in table.entry.bytes.now table.entry.shape.nodes) k) }
{
    let node = table.node(k);
    match Op::from(node.op) {
        Op::Apply => Branch::itself(2 + u16::from(node.symbol)),
        Op::Choose | Op::Select => Branch::where_true(
            cell_at(positions, node.a),
            cell_at(positions, node.b),
            cell_at(positions, node.c),
        ),
        Op::Equal => Branch {
            left: cell_at(positions, node.a),
            right: cell_at(positions, node.b),
            same: 1,
            apart: 0,
        },
        Op::Negate => Branch::where_true(cell_at(positions, node.a), 0, 1),
        Op::Both => Branch::where_true(cell_at(positions, node.a), cell_at(positions, node.b), 0),
        Op::Either => Branch::where_true(cell_at(positions, node.a), 1, cell_at(positions, node.b)),
        Op::Test => Branch::itself(2 + (table.shape.variables as u16 + u16::from(node.symbol))),
        Op::Verum => Branch::itself(1),
        Op::Falsum | Op::Unknown => Branch::FALSE,
    }
}

// For each branch, at its node's position, the places where the lanes of its four cells begin.
pub fn decode(table: FreeTable<'_>, chunks: usize, positions: &[u16], branches: &mut [Branch])
    requires { InOrder positions.now × (length positions.now ≡ table.shape.nodes) × (chunks * (42 + table.shape.nodes) ≤ 4096) × (table.shape.nodes ≤ length branches.old) }
    ensures { Decoded (16 * chunks) (positions_in positions.now) table.entry.bytes.now table.entry.shape branches.new table.entry.shape.nodes }
{
    let lanes = 16 * chunks as u16;
    for (k, position) in positions.iter().enumerate() {
        let branch = branch_at(table, k, positions);
        branches[usize::from(*position)] = branch.laid_out(lanes);
    }
}
