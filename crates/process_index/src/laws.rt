// The laws of open calls in order, and of indexes.
ghost use Rattle.std.specs.Prelude.{ℕ, nat_eq};
ghost use Rattle.std.specs.Ordering.{nat_cmp};
ghost use Rattle.std.specs.Cmp.Lexicographic.{slice_cmp};
ghost use Rattle.std.specs.Str.{bytes_eq};
ghost use Rattle.process_index.specs.declared.numbers.Owner.{Owner};
ghost use Rattle.process_index.specs.Laws.{AreIndexes, CallsAreOne, CallsComeBack};

/// A law: open calls in order are told by which calls they are.
pub fn calls_in_order_are_one()
    ensures { CallsAreOne }
{}

/// A law: a call that was put in is taken back by taking it out, and one that was taken out by putting it in.
pub fn calls_come_back()
    ensures { CallsComeBack }
{}

/// A law: a name has the pid that it was registered for last, every other name what it had, names that have the same
/// pids are the same, and what a name had takes its change back.
pub fn names_are_indexed()
    ensures { AreIndexes (slice_cmp nat_cmp) bytes_eq ℕ }
{}

/// A law: as much of the owners of open calls under the calls' numbers.
pub fn numbers_are_indexed()
    ensures { AreIndexes nat_cmp nat_eq Owner }
{}
