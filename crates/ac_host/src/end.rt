//! Why a script didn't run to its end.
ghost use Rattle.std.specs.Prelude.{◌≡◌};
ghost use Rattle.ac_host.specs.declared.end.HostEnd.TheVariants as host_end;

use ac_base::NoMemory;
use ac_io::WriteFault as SinkFault;
use thiserror::Error;

/// Why a script didn't run to its end.
#[derive(Clone, Copy, Debug, Drop, Error)]
pub enum HostEnd {
    #[error("the output can't be written")]
    WriteFault,
    #[error("out of memory")]
    NoMemory,
}

impl From<NoMemory> for HostEnd {
    ghost from_gives = { λ _ e. e ≡ host_end.NoMemory };

    fn from(_error: NoMemory) -> HostEnd {
        HostEnd::NoMemory
    }
}

impl From<SinkFault> for HostEnd {
    ghost from_gives = { λ _ e. e ≡ host_end.WriteFault };

    fn from(_fault: SinkFault) -> HostEnd {
        HostEnd::WriteFault
    }
}
