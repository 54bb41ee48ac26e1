//! What is true of every store, as functions whose clause is the law.
ghost use Rattle.cm_spill.specs.StoresLaws.{AllWritten, HoldsBytes, ReadOneWay, TwoRecords};

/// While its contents are known, a spill holds the bytes of all records that were put, except those that wait.
pub fn bytes_held()
    ensures held { HoldsBytes }
{}

/// If none waits, a spill with known contents holds the records that were put, and no others.
pub fn all_written()
    ensures written { AllWritten }
{}

/// What records some bytes are, if they are records.
pub fn read_one_way()
    ensures one { ReadOneWay }
{}

/// The bytes of records.
pub fn worked_rows()
    ensures two { TwoRecords }
{}
