//! The starred rows of the bench book: a single table, and a single proved statement over it.
#![tactic(auto)]

ghost use Rattle.book.specs.Table.{BenchBook};

/// Every starred row shows what the bench book says.
pub fn bench_book()
    ensures { BenchBook }
{}
