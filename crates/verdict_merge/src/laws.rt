//! Laws of merged rows, as theorems on the definitions. Each call does nothing: its clause is the law.
ghost use Rattle.verdict_merge.specs.Laws.{EmitsOne, EveryWorker, OwnersMerge, PartitionMerges};

/// Where what the workers say is a partition of an ascending list, the merged rows are that list.
pub fn partition_merges()
    ensures { PartitionMerges }
{}

/// Where what the workers say is by owner a partition of an ascending list, the merged rows are that list.
pub fn owners_merge()
    ensures { OwnersMerge }
{}

/// As many Rows as there are workers, no worker's twice, are the Rows of every worker.
pub fn every_worker()
    ensures { EveryWorker }
{}

/// What was gathered settles what comes out.
pub fn emits_one()
    ensures { EmitsOne }
{}
