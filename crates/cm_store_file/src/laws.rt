//! Laws of store files. The clauses are proved for all stores and bytes.
ghost use Rattle.std.specs.Prelude.{◌≡◌, ℕ, List, Err, Ok, drop};
ghost use Rattle.cm_bits.specs.Bound.{AllBelow};
ghost use Rattle.cm_dump.specs.Forms.{version_of};
ghost use Rattle.cm_dump.specs.declared.versions.Version.TheVariants as version;
ghost use Rattle.cm_bdz.specs.Functions.{IsBdz};
ghost use Rattle.cm_store.specs.Stores.{IsStore, Store};
ghost use Rattle.cm_store_file.specs.Loads.{IsFileFault};
ghost use Rattle.cm_store_file.specs.StoreFiles.{store_bytes, store_in};
ghost use Rattle.cm_store_file.specs.declared.fault.StoreLoad.{StoreLoad};
ghost use Rattle.cm_store_file.specs.declared.header.TheConstants.{HEADER_LEN};

use cm_dump::laws::dumps_spell;

/// A store is read from its file as it was written, and so equal files come from equal stores. Bytes from which a store is read are its
/// file if their index is a dump of version 2, which is what is written. Others have a fault of their own, which is neither that memory
/// ran out nor that the source failed.
pub fn files_spell()
    ensures spelling { (s : Store) → IsStore s → IsBdz s.index → store_in (store_bytes s) ≡ Ok s }
    ensures same { (s t : Store) → IsStore s → IsBdz s.index → IsStore t → IsBdz t.index → store_bytes s ≡ store_bytes t → s ≡ t }
    ensures bytes { (bytes : List ℕ) (s : Store) → AllBelow 256 bytes → store_in bytes ≡ Ok s → IsStore s × IsBdz s.index × (version_of (drop HEADER_LEN bytes) ≡ version.Two → store_bytes s ≡ bytes) }
    ensures faults { (bytes : List ℕ) (fault : StoreLoad) → store_in bytes ≡ Err fault → IsFileFault fault }
{
    dumps_spell();
}
