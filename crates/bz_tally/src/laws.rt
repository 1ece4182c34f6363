//! Laws of what the swaps of tasks make of the number of leaves. Each function does nothing: its contract is the law.

ghost use Rattle.bz_tally.specs.Deletes.{DeletesTakeOneRecord, DeletesTellFew};
ghost use Rattle.bz_tally.specs.Laws.{LeavesComeAndGo, MergesCountAtLast};

/// One leaf more comes only by the split of a leaf, and one less only by the merge of two.
pub fn leaves_come_and_go()
    ensures { LeavesComeAndGo }
{}

/// With the last swap that a merge can still ask for there is one leaf less, and with those before it there are as many.
pub fn merges_count_at_last()
    ensures { MergesCountAtLast }
{}

/// The swap of a delete leaves the leaf of its key all live words but those of one record, and the tree as it stands.
pub fn deletes_take_one_record()
    ensures { DeletesTakeOneRecord }
{}

/// Where it leaves fewer live words than a leaf needs to stand alone, the delete tells so.
pub fn deletes_tell_few()
    ensures { DeletesTellFew }
{}
