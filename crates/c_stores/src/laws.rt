//! Laws on what initialisers are for.

ghost use Rattle.c_stores.specs.Laws.{ComesInOrder};

/// A law: in a list each initialiser is for an object that begins where its turn comes, and the next one begins behind that.
pub fn objects_come_in_order()
    ensures { ComesInOrder }
{}
