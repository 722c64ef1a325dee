//! Laws of the text of a script's report.

ghost use Rattle.std.specs.Prelude.{◌≡◌, ◌<◌, ◌↔◌, ℕ, List, Result, Ok, length};
ghost use Rattle.ddc_base.specs.Limits.{most_report};
ghost use Rattle.report.specs.Script.Reading.{script_report_of};
ghost use Rattle.report.specs.Script.Reports.{IsScriptReport, script_report_text, script_report_texts};
ghost use Rattle.report.specs.Texts.{IsReading};
ghost use Rattle.report.specs.declared.script.types.ScriptReport.{ScriptReport as ReportValue};

/// Two well-formed reports with equal texts are equal.
pub fn one_text()
    ensures { (first second : ReportValue) → IsScriptReport first → IsScriptReport second → script_report_text first ≡ script_report_text second → first ≡ second }
{}

/// The text of a well-formed report has fewer than 2^30 bytes.
pub fn short_text()
    ensures { (report : ReportValue) → IsScriptReport report → length (script_report_text report) < most_report }
{}

/// A text has exactly one reading: the report with this text, or otherwise its first fault.
pub fn one_reading()
    ensures { (bytes : List ℕ) (reading : Result ReportValue ℕ) → (script_report_of bytes ≡ reading) ↔ IsReading script_report_texts bytes reading }
{}

/// Reading the text of a well-formed report returns that report.
pub fn what_is_written_is_read()
    ensures { (report : ReportValue) → IsScriptReport report → script_report_of (script_report_text report) ≡ Ok report }
{}
