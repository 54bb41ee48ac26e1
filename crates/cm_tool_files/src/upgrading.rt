//! A function file, rewritten in the version that is written today.
ghost use Rattle.std.specs.Prelude.{◌≡◌, IfErr, IfOk};
ghost use Rattle.std.specs.Option.{ForSome};
ghost use Rattle.cm_tool_asking.specs.Loads.{HasLoadCause};
ghost use Rattle.cm_tool_files.specs.Asked.{SpellsAs};
ghost use Rattle.cm_tool_files.specs.Upgrades.{EndsUpgrade, HasUpgradeCause, RefusesDump, upgrade_stop_from};

use crate::asked::AskedFunc;
use crate::storing::FuncFile;
use cm_dump::{LoadFault, Loaded, Version};
use cm_io::{Disk, DiskFault};
use cm_tool_asking::{Unloaded, load_file};
use cm_tool_building::store_file;
use cm_tool_stops::UpgradeStop;
use std::alloc::Global;

/// Why a failed load stops an upgrade.
fn stop_of_load(fault: Unloaded<LoadFault>) -> UpgradeStop
    ensures stop { result ≡ upgrade_stop_from fault }
{
    match fault {
        Unloaded::Memory => UpgradeStop::Memory,
        Unloaded::Read => UpgradeStop::Read,
        Unloaded::Bad(fault) => UpgradeStop::BadDump { fault },
    }
}

/// Loads the function of a function file.
fn load_func<D: Disk>(
    alloc: Global,
    path: &str,
    disk: &mut D,
) -> Result<Loaded, Unloaded<LoadFault>>
    ensures files { (D.state disk.new).files ≡ (D.state disk.old).files }
    ensures spilled { (D.state disk.new).spilled ≡ (D.state disk.old).spilled }
    ensures write_faults { (D.state disk.new).write_faults ≡ (D.state disk.old).write_faults }
    ensures cause { HasLoadCause (D.state disk.old).read_faults (D.state disk.new).read_faults result }
    ensures spelled { IfOk result (λ loaded. ForSome (D.state disk.old).files (λ files. SpellsAs files path.now loaded)) }
    ensures refused { IfErr result (λ fault. ForSome (D.state disk.old).files (λ files. RefusesDump files path.now fault)) }
{
    match load_file::<AskedFunc, D>(alloc, path, disk) {
        Ok(asked) => Ok(asked.loaded),
        Err(fault) => Err(fault),
    }
}

/// Rewrites a function file of version 1 in version 2. It is created only after it was loaded. A file of version 2 is left as it is.
pub fn upgrade_file<D: Disk>(alloc: Global, path: &str, disk: &mut D) -> Result<(), UpgradeStop>
    ensures spilled { (D.state disk.new).spilled ≡ (D.state disk.old).spilled }
    ensures cause { HasUpgradeCause (D.state disk.old) (D.state disk.new) result }
    ensures ends { EndsUpgrade path.now (D.state disk.old).files (D.state disk.new).files result }
{
    let loaded = match load_func(alloc, path, disk) {
        Ok(loaded) => loaded,
        Err(fault) => return Err(stop_of_load(fault)),
    };
    match loaded.version {
        Version::Two => Ok(()),
        Version::One => {
            let file = FuncFile { func: loaded.func };
            match store_file(path, &file, disk) {
                Ok(()) => Ok(()),
                Err(DiskFault::Memory) => Err(UpgradeStop::Memory),
                Err(DiskFault::Failed) => Err(UpgradeStop::Write),
            }
        }
    }
}
