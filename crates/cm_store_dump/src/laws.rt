//! A law of builds. Its body calls the law that it follows from, and does nothing else.
ghost use Rattle.std.specs.Prelude.{◌≡◌, ℕ, List, Some};
ghost use Rattle.std.specs.FinMap as map;
ghost use Rattle.cm_io.specs.Files.{Files, file_at};
ghost use Rattle.cm_keys.specs.Lines.{keys_in};
ghost use Rattle.cm_store_dump.specs.Building.{IsStoreOf};
ghost use Rattle.cm_store_dump.specs.Running.{HasSavedAll};
ghost use Rattle.cm_store_dump.specs.declared.files.StoreFile.{StoreFile};
ghost use Rattle.cm_store_file.specs.StoreFiles.{store_bytes};
ghost use Rattle.cm_store_words.specs.declared.jobs.StoreBuild.{StoreBuild};

use cm_store_file::laws::files_spell;

/// A build that came to its end left a store file whose store answers as its lines do.
pub(crate) fn all_answered()
    ensures { (job : StoreBuild) (files : Files) (bytes : List ℕ) (file : StoreFile) → file_at files job.lines ≡ Some bytes → IsStoreOf job (keys_in job.first job.end bytes) file → HasSavedAll job files (Some (map.insert files job.store (store_bytes file.store))) }
{
    files_spell();
}
