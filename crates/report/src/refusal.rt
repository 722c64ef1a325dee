ghost use Rattle.std.specs.Prelude.{◌≡◌};
ghost use Rattle.report.specs.declared.refusal.ReportRefusal.TheVariants.{OutOfMemory};

use ddc_base;
use thiserror::Error;

/// Why bytes are not a report.
#[derive(Clone, Copy, Debug, Error)]
pub enum ReportRefusal {
    /// The bytes are not the text of a report. The field is the number, from 1, of the first invalid line.
    #[error("report line {0}")]
    Form(u64),
    #[error("out of memory")]
    OutOfMemory,
}

impl From<ddc_base::OutOfMemory> for ReportRefusal {
    ghost from_gives = { λ _ refusal. refusal ≡ OutOfMemory };

    fn from(_error: ddc_base::OutOfMemory) -> ReportRefusal {
        ReportRefusal::OutOfMemory
    }
}
