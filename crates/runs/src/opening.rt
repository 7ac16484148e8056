ghost use Rattle.runs.specs.Playing.{OpenedIsEmpty, HoldsParts};

use rows::RowKind;

/// The law of runs is never empty: what `Shelf::open` makes holds the empty ledger, whatever is in the memory.
pub fn opened_shelf_is_empty<R: RowKind>()
    ensures empty { OpenedIsEmpty R }
{}

/// Nor where it goes on: every shelf holds the parts of some ledger, and of no ledger with other parts.
pub fn every_shelf_holds_parts<R: RowKind>()
    ensures parts { HoldsParts R }
{}
