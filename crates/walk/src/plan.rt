// What is walked: a table, the node whose truth is looked at, the odometer at place 1, and how its digits are split.
ghost use Rattle.walk.specs.Planned.{Planned};

use crate::odometer::Odometer;
use crate::split::Parts;
use ranges::table::FreeTable;

#[derive(Clone, Copy)]
pub struct Plan<'a> {
    pub table: FreeTable<'a>,
    pub root: usize,
    pub start: Odometer,
    pub parts: Parts,
    pub ghost planned: { Planned table.bytes.now table.shape root start parts },
}
