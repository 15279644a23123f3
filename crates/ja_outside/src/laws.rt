//! Laws of shelves that tell: a read to the end has exactly one answer besides a fault and want of memory.

ghost use Rattle.ja_outside.specs.Laws.{HasAnswer, HasOneAnswer};

/// Under each name stand bytes within the limit, more bytes, or nothing.
pub fn shelf_has_an_answer()
    ensures { HasAnswer }
{}

/// No two of these, and no two lists of bytes.
pub fn shelf_has_one_answer()
    ensures { HasOneAnswer }
{}
