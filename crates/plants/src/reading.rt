//! A file's parts and their table, for tests: a refusal fails the test.
ghost use Rattle.std.specs.Prelude.{IfOk};
ghost use Rattle.parts.specs.Parts.{largest, ArePartsOf, IsTableOf};

use parts::stores::{Parts, Room};
use std::alloc::Global;
use std::fmt::Display;
use std::test::Fail;
use table::table::Table;
use text::fault::Refusal;

/// A file's parts.
pub fn read(file: &str, heap: Global) -> Result<Parts, Fail>
    ensures { IfOk result (λ p. ArePartsOf largest file.now p) }
{
    read_into(file, &Room::largest(), heap)
}

/// A file's parts, from stores with this room.
pub fn read_into(file: &str, room: &Room, heap: Global) -> Result<Parts, Fail>
    ensures { IfOk result (λ p. ArePartsOf room.now file.now p) }
{
    Parts::read(heap, room, file.as_bytes())?.map_err(|fault| Fail::new(format_args!(
        "line {}",
        fault.place()
    )))
}

/// The table of these parts, which the check accepts.
pub fn table_of<'a>(parts: &'a Parts, case: &impl Display) -> Result<Table<'a>, Fail>
    ensures { IfOk result (λ t. IsTableOf parts.now t) }
{
    parts
        .table()
        .map_err(|_| Fail::new(format_args!("refused: {case}")))
}
