//! Laws of a report's text.

ghost use Rattle.std.specs.Prelude.{◌≡◌, ◌<◌, ◌^◌, ◌↔◌, ℕ, List, Result, IsTrue, length, map};
ghost use Rattle.std.specs.Ordering.{nat_cmp};
ghost use Rattle.std.specs.Cmp.Lexicographic.{slice_cmp};
ghost use Rattle.std.specs.List.Sorted.{IsStrictlySortedBy};
ghost use Rattle.ddc_base.specs.Limits.{most_report};
ghost use Rattle.sha2.specs.Sha256.{sha256};
ghost use Rattle.report.specs.Reading.{report_of};
ghost use Rattle.report.specs.Reports.{IsMark, IsReport, ascend, report_text, report_texts};
ghost use Rattle.report.specs.Texts.{IsReading};
ghost use Rattle.report.specs.declared.types.LeftLine.{LeftLine};
ghost use Rattle.report.specs.declared.types.Report.{Report as ReportValue};

/// Two well-formed reports with equal texts are equal.
pub fn one_text()
    ensures { (first second : ReportValue) → IsReport first → IsReport second → report_text first ≡ report_text second → first ≡ second }
{}

/// The text of a well-formed report has fewer than 2^30 bytes.
pub fn short_text()
    ensures { (report : ReportValue) → IsReport report → length (report_text report) < most_report }
{}

/// A text has exactly one reading: the report with this text, or otherwise its first fault.
pub fn one_reading()
    ensures { (bytes : List ℕ) (reading : Result ReportValue ℕ) → (report_of bytes ≡ reading) ↔ IsReading report_texts bytes reading }
{}

/// The length and the SHA-256 digest of fewer than 2^64 bytes are a valid mark.
pub fn marks_are_marks()
    ensures { (bytes : List ℕ) → length bytes < 2 ^ 64
        → IsMark (record { length = length bytes; digest = record { 0 = sha256 bytes } }) }
{}

/// Files with sorted names, as those of a map, ascend.
pub fn sorted_names_ascend()
    ensures { (files : List LeftLine) → IsStrictlySortedBy (slice_cmp nat_cmp) (map (λ file. file.name) files) → IsTrue (ascend files) }
{}
