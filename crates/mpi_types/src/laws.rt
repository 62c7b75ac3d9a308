//! Laws of MPI's data.

ghost use Rattle.mpi_types.specs.Accepts.{AcceptanceIsTested};
ghost use Rattle.mpi_types.specs.Groups.{SplitsAreOrdered};
ghost use Rattle.mpi_types.specs.Post.{InsertionIsOnePlace};

/// A law: a split puts the members of a colour in their new order, each once.
pub fn splits_are_ordered()
    ensures { SplitsAreOrdered }
{}

/// A law: the test of acceptance, on which definitions branch, agrees with what acceptance is.
pub fn acceptance_is_tested()
    ensures { AcceptanceIsTested }
{}

/// A law: a pair that was put among matched ones by request stands at the one place that it can have.
pub fn insertion_is_one_place()
    ensures { InsertionIsOnePlace }
{}
