//! Laws of starts that keep what stands: the contract of each function is the law, and its body is empty.
ghost use Rattle.kept_starts.specs.CutStarts.{CutFirstStarts};
ghost use Rattle.kept_starts.specs.KeptStores.{StartsKeepStores, RefusedLooksWriteNothing, RefusedStartsWriteNothing};

/// A start under any bus file, over a disk that tells its bytes: the disk was unused; or a cut within the first format of
/// the very store of the bus's node left its bytes, so none stands; or the bytes stay as they are; or they have a store
/// of version 1, which is moved with all its cells. So each store that stands there, of whatever kind and number of
/// cells, stands for the same cells after it, whatever a power cut leaves. A start that is refused with 10, and whose
/// disk didn't fail, changes no byte of a disk that was in use. There is no premise on the bus, but that it has one node.
pub fn starts_keep_stores()
    ensures opened { StartsKeepStores }
    ensures refused { RefusedLooksWriteNothing }
    ensures refused_start { RefusedStartsWriteNothing }
{}

/// Whatever a power cut leaves of a disk of zeros within the first start of a bus of one node, the next start under the
/// same bus goes on over it, or the format was cut short. That is finished next if its header wasn't begun and each byte
/// after it is zero or that which the format writes there. A kill is a stop at a call of the disk.
pub fn a_first_start_that_is_cut_short_is_finished_next()
    ensures { CutFirstStarts }
{}
