//! How many calls of a device answered each fault. Every device that can fail keeps these two numbers, and they
//! are defined here so that all of them count in one way.

ghost use Rattle.std.specs.Prelude.{◌≡◌};
ghost use Rattle.drain_device.specs.Counts.{counts_after_fault, no_faults};

use crate::fault::DeviceFault;

/// How many calls answered each fault. A count stops at the greatest number of 64 bits.
#[derive(Clone, Copy, PartialEq, Eq, Debug)]
pub struct FaultCounts {
    pub failures: u64,
    pub interruptions: u64,
}

impl FaultCounts {
    /// No call has answered a fault.
    pub const NONE: FaultCounts = FaultCounts {
        failures: 0,
        interruptions: 0,
    };

    /// Counts one more call with this fault, and returns the fault.
    pub fn count(&mut self, fault: DeviceFault) -> DeviceFault
        ensures counted { self.new ≡ counts_after_fault self.old fault }
        ensures same { result ≡ fault }
    {
        match fault {
            DeviceFault::Interrupted => self.interruptions = self.interruptions.saturating_add(1),
            DeviceFault::Failed => self.failures = self.failures.saturating_add(1),
        }
        fault
    }
}
