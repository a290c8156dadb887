//! Why a map is not mended.
use crate::looking::LookFault;
use crate::save_fault::SaveFault;
use map_mending::MendFault;
use std::alloc::AllocError;

/// Why a map is not mended.
#[derive(Clone, Copy, Debug)]
pub enum RepairFault<'a> {
    /// It was not looked through.
    Look(LookFault<'a>),
    /// It was, and no rings stand in the place of its walks.
    Mend(MendFault),
    /// It was mended, and what it was mended to is not saved.
    Save(SaveFault),
}

impl<'a> From<AllocError> for RepairFault<'a> {
    ghost use Rattle.std.specs.Prelude.{◌≡◌};
    ghost use Rattle.mend_report.specs.declared.looking.LookFault.TheVariants.{OutOfMemory};
    ghost use Rattle.mend_report.specs.declared.repair_fault.RepairFault.TheVariants.{Look};

    ghost from_gives = { λ _ fault. fault ≡ Look OutOfMemory };

    fn from(_error: AllocError) -> RepairFault<'a> {
        RepairFault::Look(LookFault::OutOfMemory)
    }
}

impl<'a> From<MendFault> for RepairFault<'a> {
    ghost use Rattle.std.specs.Prelude.{◌≡◌};
    ghost use Rattle.mend_report.specs.declared.repair_fault.RepairFault.TheVariants.{Mend};

    ghost from_gives = { λ fault e. e ≡ Mend fault };

    fn from(fault: MendFault) -> RepairFault<'a> {
        RepairFault::Mend(fault)
    }
}

impl<'a> From<SaveFault> for RepairFault<'a> {
    ghost use Rattle.std.specs.Prelude.{◌≡◌};
    ghost use Rattle.mend_report.specs.declared.repair_fault.RepairFault.TheVariants.{Save};

    ghost from_gives = { λ fault e. e ≡ Save fault };

    fn from(fault: SaveFault) -> RepairFault<'a> {
        RepairFault::Save(fault)
    }
}
