//! Calls that make a file.

ghost use Rattle.std.specs.Prelude.{IfOk, IfErr};
ghost use Rattle.file_device.specs.Names.{IsMadeEmpty, MakingFailed};

use disk_model::{Depot, Failed, Made};

/// Makes an empty file of this name, which a crash leaves in place. A file that is there stays as it is.
pub fn make<D: Depot>(depot: &mut D, name: &str) -> Result<Made, Failed>
    ensures made { IfOk result (λ made. IsMadeEmpty made name.now (D.world depot.old) (D.world depot.new)) }
    ensures failed { IfErr result (λ _. MakingFailed name.now (D.world depot.old) (D.world depot.new)) }
{
    depot.make(name)
}
